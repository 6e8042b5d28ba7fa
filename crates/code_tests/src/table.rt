use rz_flags::Cond;
use rz_isa::{Fields, InsnTable, Kind, Place, Reg, build, fields_of, kind};
use rz_num::Width;
use rz_table::Profile1;

#[test]
fn last_row_is_found_again(rt: HostRuntime) {
    let row = Profile1::row(202);
    let fields = Fields {
        w: Width::W8,
        reg: Reg::R(0),
        rm: Place::Reg(Reg::R(0)),
        cond: 0,
        imm: 0,
        rep: 0,
    };
    let insn = build(&row, &fields);
    assert!(rt; kind(&insn) == Kind::Halt);
    assert!(rt; fields_of(&row, &insn).is_some());
    assert!(rt; fields_of(&Profile1::row(0), &insn).is_none());
}

#[test]
fn table_has_its_rows(rt: HostRuntime) {
    assert_eq!(rt; Profile1::count(), 203);
    assert_eq!(rt; Cond::from_number(4).number(), 4);
}
