ghost use Rattle.std.specs.Prelude.{◌≡◌, IfSome};
ghost use Rattle.rz_isa.specs.Canonical.{chosen, same_form as same_form_as};
ghost use Rattle.rz_encode.specs.Calls.Choose.{chosen_view, served, IsGood};

use rz_isa::{Fields, Form, Insn, InsnTable, Row, class_of, fields_of};

/// A row and fields that it can have.
#[derive(Clone, Copy)]
pub struct Choice {
    pub row: Row,
    pub fields: Fields,
}

fn same_form(a: Form, b: Form) -> bool
    ensures { result ≡ same_form_as a b }
{
    matches!(
        (a, b),
        (Form::Near, Form::Near) | (Form::Short, Form::Short)
    )
}

// Fields with which a row of the form builds the instruction.
fn serve(row: &Row, insn: &Insn, form: Form) -> Option<Fields>
    ensures { result ≡ served form insn.now row.now }
{
    if same_form(row.form, form) {
        fields_of(row, insn)
    } else {
        None
    }
}

/// The first row of the form that can have fields that build the instruction, with these fields.
/// Only the rows of the instruction's class are tried.
pub fn choose<T: InsnTable>(insn: &Insn, form: Form) -> Option<Choice>
    ensures value { chosen_view result ≡ chosen T.rows form insn.now }
    ensures good { IfSome result IsGood }
{
    for number in T::rows_of(class_of(insn)) {
        let row = T::row(*number as usize);
        if let Some(fields) = serve(&row, insn, form) {
            return Some(Choice { row, fields });
        }
    }
    None
}
