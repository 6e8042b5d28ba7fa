//! The tables of the instructions that are read, run and written: profile 1, and profile 2 with further rows.
#![tactic(auto)]

// One line for each row of a table: `_` stands where the row has none, and a ModRM byte in
// parentheses is the whole byte that the row takes.
macro_rules! rm_rule {
    (_) => {
        None
    };
    (($byte:literal)) => {
        Some(RmRule::Fixed($byte))
    };
    ($rule:ident) => {
        Some(RmRule::$rule)
    };
}

macro_rules! digit {
    (_) => {
        None
    };
    ($digit:literal) => {
        Some($digit)
    };
}

macro_rules! immediate {
    (_) => {
        None
    };
    ($kind:ident) => {
        Some(ImmKind::$kind)
    };
}

macro_rules! row {
    ($map:ident $opcode:literal $span:literal $digit:tt $rm:tt $f3:ident $size:ident $imm:tt $form:ident $op:expr) => {
        Row {
            map: OpMap::$map,
            opcode: $opcode,
            span: $span,
            digit: digit!($digit),
            rm: rm_rule!($rm),
            f3: F3Rule::$f3,
            lock: false,
            size: Size::$size,
            imm: immediate!($imm),
            form: Form::$form,
            op: $op,
        }
    };
}

mod further_rows;
mod index;
mod profile;
mod profile2;
mod profile2_index;
mod profile_index;
mod profile_rows;

pub use profile::Profile1;
pub use profile2::Profile2;
