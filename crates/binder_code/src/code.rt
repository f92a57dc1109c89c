ghost use Rattle.std.specs.Prelude.{◌≡◌};
ghost use Rattle.binder_code.specs.Code.{number, letter, size, direction};

/// A code word, in the layout of `asm-generic/ioctl.h`.
#[derive(Clone, Copy, Debug, PartialEq, Eq)]
pub struct Code(pub u32);

impl Code {
    /// The command's number in its protocol, bits 0 to 7 (`_IOC_NR`).
    pub fn number(self) -> u8
        ensures { result ≡ number self.0 }
    {
        (self.0 & 0xff) as u8
    }

    /// The protocol's letter, bits 8 to 15 (`_IOC_TYPE`).
    pub fn letter(self) -> u8
        ensures { result ≡ letter self.0 }
    {
        (self.0 >> 8 & 0xff) as u8
    }

    /// The size of the payload in bytes, bits 16 to 29 (`_IOC_SIZE`).
    pub fn size(self) -> u16
        ensures { result ≡ size self.0 }
    {
        (self.0 >> 16 & 0x3fff) as u16
    }

    /// Which way the payload goes, bits 30 and 31 (`_IOC_DIR`): 0 none, 1 write, 2 read.
    pub fn direction(self) -> u8
        ensures { result ≡ direction self.0 }
    {
        (self.0 >> 30) as u8
    }
}

/// Why a code word is bad in a frame of a protocol.
#[derive(Clone, Copy, Debug, PartialEq, Eq)]
pub enum CodeFault {
    /// The letter is not the protocol's, or the direction bits do not go with the size.
    Direction,
    /// The header lists the number, with another size.
    Size,
}
