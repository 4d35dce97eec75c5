// What a step and an origin begin with.
pub const INSERT: u8 = 1;

pub const CLOSE: u8 = 2;

pub const RELATION: u8 = b'R';

pub const JACOBI: u8 = b'J';

pub const CUBE: u8 = b'C';
