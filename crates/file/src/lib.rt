// The area file as bytes: its layout, its blocks, and the size that it must have.
#![tactic(auto)]

pub const FILE_SIZE: usize = 2560;

// A file of that size.
pub type File = [u8; 2560];
