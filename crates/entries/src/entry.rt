// What a pass goes by.
ghost use Rattle.std.specs.Prelude.{◌≤◌};

// A method byte, of which every value has a meaning in the rules, and a confirm.
#[derive(Clone, Copy)]
pub struct Entry {
    pub method: u8,
    pub confirm: u8,
    ghost confirmed: { 1 ≤ confirm },
}
