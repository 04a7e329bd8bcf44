// Numbers of several bytes, most significant byte first.
ghost use Rattle.std.specs.Prelude.{◌≡◌, ℕ, ◌≤◌, length};
ghost use Rattle.reading.specs.Numbers.{number, spelled};

use std::convert::AsSlice;

// A number that so many bytes hold: std's `from_be_bytes` and `to_be_bytes` belong to no trait.
pub trait Number: Copy {
    type Bytes: AsSlice<u8>;

    ghost WIDTH: { ℕ };

    ghost value: { Self → ℕ };

    const WIDTH: usize;

    // The number in the first bytes.
    fn from_front(bytes: &[u8]) -> Self
        requires { WIDTH ≤ length bytes.now }
        ensures { value result ≡ number WIDTH bytes.now };

    fn to_bytes(self) -> Self::Bytes
        ensures { Self.Bytes.items result ≡ spelled WIDTH (value self) };
}

impl Number for u8 {
    type Bytes = [u8; 1];

    ghost WIDTH = { 1 };

    ghost value = { λ n. n };

    const WIDTH: usize = 1;

    fn from_front(bytes: &[u8]) -> u8 {
        bytes[0]
    }

    fn to_bytes(self) -> [u8; 1] {
        self.to_be_bytes()
    }
}

impl Number for u16 {
    type Bytes = [u8; 2];

    ghost WIDTH = { 2 };

    ghost value = { λ n. n };

    const WIDTH: usize = 2;

    fn from_front(bytes: &[u8]) -> u16 {
        u16::from_be_bytes([bytes[0], bytes[1]])
    }

    fn to_bytes(self) -> [u8; 2] {
        self.to_be_bytes()
    }
}

impl Number for u32 {
    type Bytes = [u8; 4];

    ghost WIDTH = { 4 };

    ghost value = { λ n. n };

    const WIDTH: usize = 4;

    fn from_front(bytes: &[u8]) -> u32 {
        u32::from_be_bytes([bytes[0], bytes[1], bytes[2], bytes[3]])
    }

    fn to_bytes(self) -> [u8; 4] {
        self.to_be_bytes()
    }
}
