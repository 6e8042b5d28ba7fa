//! The numbers of executable ELF-64 files for x86-64 (System V gABI, chapters 4 and 5), and of written files: their
//! stamp, their added loads, their stubs.

/// `e_type` of an executable: ET_EXEC.
pub const EXECUTABLE: u16 = 2;

/// `e_machine` of x86-64: EM_X86_64.
pub const X86_64: u16 = 62;

/// The version of the format: EV_CURRENT.
pub const CURRENT: u8 = 1;

/// `p_type` of a segment that is loaded: PT_LOAD.
pub const LOAD: u32 = 1;

/// `p_type` of a segment that says how a file is linked when it runs: PT_DYNAMIC.
pub const DYNAMIC: u32 = 2;

/// `p_type` of a segment that names a dynamic linker: PT_INTERP.
pub const INTERPRETER: u32 = 3;

/// `p_type` of a segment that says how the stack may be used: PT_GNU_STACK.
pub const STACK: u32 = 0x6474_e551;

/// Where the stamp of a written file begins, in bytes from the front of the file: EI_PAD.
pub const STAMP_AT: usize = 9;

/// The stamp of a written file.
pub const STAMP: [u8; 7] = *b"RZSTUB1";

/// Its number.
pub const STAMP_NUMBER: u8 = 1;

/// How many loads a written file has besides those of its original: scratch, tables, code and stubs, in this order and
/// before all others.
pub const ADDED_LOADS: usize = 4;

/// The number of the load of stubs in a written file, from 0.
pub const STUBS_LOAD: usize = 3;

/// The bytes of a stub. A stub has its front, zeros up to its word, the word, and INT3 up to its end.
pub const STUB_SIZE: u64 = 24;

/// With which bytes a stub begins: UD2 (Intel SDM, volume 2, "UD").
pub const STUB_FRONT: [u8; 2] = [0x0f, 0x0b];

/// Where the word of a stub stands in it, in bytes: the address of the instruction that it stands for, the low byte first.
pub const STUB_WORD_AT: u64 = 8;

/// The byte that fills what is left of stubs and of the parts with code and stubs: INT3 (Intel SDM, volume 2,
/// "INT n/INTO/INT3/INT1").
pub const INT3: u8 = 0xcc;
