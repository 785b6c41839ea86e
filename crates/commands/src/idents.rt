// Document 01, "The four frames": the Ident of each command, and its number.
ghost use Rattle.std.specs.Prelude.{◌≡◌};
ghost use Rattle.commands.specs.Idents.{number};

#[derive(Clone, Copy, Debug, PartialEq, Eq)]
pub enum Ident {
    Init = 0,
    Update = 1,
    Stop = 2,
    Single = 3,
}

impl Ident {
    pub fn number(self) -> u8
        ensures { result ≡ number self }
    {
        self as u8
    }
}
