//! Instructions, the rows that spell them, and the trait of instruction tables.
#![tactic(auto)]

pub mod classes;
pub mod decoding;
mod find;
mod fragment_list;
pub mod having;
pub mod instruction;
mod item_list;
pub mod kinds;
pub mod laws;
pub mod rows;
pub mod spelled;
pub mod table;

pub use classes::{Class, class_of};
pub use decoding::Decoded;
pub use find::fields_of;
pub use fragment_list::{Fragment, FragmentList, Fragments};
pub use instruction::{BitIndex, Count, Insn, Kind, Mem, Operand, Place, Reg, Rep};
pub use item_list::{Item, Items, Label, Slot};
pub use kinds::{kind, rip_target, target};
pub use rows::{F3Rule, Form, ImmKind, Letter, Op, OpMap, RmRule, Row, Size};
pub use spelled::{Fields, build};
pub use table::InsnTable;
