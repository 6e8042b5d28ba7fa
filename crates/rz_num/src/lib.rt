//! Byte lists, texts and lists of addresses; little-endian fields; pages; operand widths, and sums, differences,
//! products and quotients at a width.
#![tactic(auto)]

mod address_list;
mod byte_list;
mod carry;
mod fields;
mod page;
mod products;
mod text_list;
mod want;
mod width;

pub use address_list::{Pairs, Words};
pub use byte_list::{Bytes, are_bytes};
pub use carry::{add_carry, sub_borrow};
pub use fields::{
    get_u16, get_u32, get_u64, push_u16, push_u32, push_u64, put_u16, put_u32, put_u64,
};
pub use page::page_up;
pub use products::{div_wide, mul_wide};
pub use text_list::Text;
pub use want::OutOfMemory;
pub use width::{Width, mask, sign_extend};
