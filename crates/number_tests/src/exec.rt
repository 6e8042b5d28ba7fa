// What no clause says: that the code, as it is built, runs; instructions with values by hand from the Intel SDM.

ghost use Rattle.std.specs.Prelude.{◌≡◌};
ghost use Rattle.rz_isa.specs.declared.instruction.Place.TheVariants as places;
ghost use Rattle.rz_isa.specs.declared.instruction.Reg.TheVariants as regs;

use rz_exec::{Cpu, Fault, exec_plain};
use rz_flags::{ArithOp, Flags, ScanOp};
use rz_image::memory::Memory;
use rz_image::padded::Padded;
use rz_image::perm::Perm;
use rz_image::region::Region;
use rz_isa::{Insn, Mem, Operand, Place, Reg};
use rz_num::{Bytes, OutOfMemory, Width};
use std::alloc::Global;
use std::test::Fail;

const CLEAR: Flags = Flags {
    cf: false,
    pf: false,
    af: false,
    zf: false,
    sf: false,
    df: false,
    of: false,
};

// Three hundred bytes at 0x1000 that may be written, each 7.
fn memory(alloc: Global) -> Result<Memory, OutOfMemory> {
    let mut bytes: Vec<u8> = Vec::new(alloc);
    bytes.resize(300, 7)?;
    let mut regions = Vec::new(alloc);
    regions.push(Region {
        base: 0x1000,
        bytes: Padded::from_bytes(Bytes::from_vec(bytes)),
        opened: 300,
        perm: Perm::of_flags(6),
    })?;
    Ok(Memory::new(regions))
}

// Registers of which RAX, RCX, RSI and RDI are given.
fn cpu(rax: u64, rcx: u64, rsi: u64, rdi: u64) -> Cpu {
    Cpu {
        regs: [rax, rcx, 0, 0, 0x1080, 0, rsi, rdi, 0, 0, 0, 0, 0, 0, 0, 0],
        rip: 7,
        flags: CLEAR,
    }
}

fn register(n: u8) -> Place
    ensures { result ≡ places.Reg (regs.R n) }
{
    Place::Reg(Reg::R(n))
}

#[test]
fn counts_and_searches(rt: HostRuntime) -> Result<(), Fail> {
    let mut mem = memory(rt.alloc())?;
    for (op, value) in [
        (ScanOp::Bsf, 4),
        (ScanOp::Bsr, 11),
        (ScanOp::Tzcnt, 4),
        (ScanOp::Lzcnt, 20),
        (ScanOp::Popcnt, 8),
    ] {
        let mut cpu = cpu(u64::MAX, 0xff0, 0, 0);
        let insn = Insn::Scan {
            op,
            w: Width::W32,
            dst: 0,
            src: register(1),
        };
        assert!(rt; exec_plain(&insn, &mut cpu, &mut mem).is_none());
        assert_eq!(rt; cpu.regs[0], value);
    }
    Ok(())
}

// The word behind RSI is added, and the sum pushed.
#[test]
fn sums_and_pushes(rt: HostRuntime) -> Result<(), Fail> {
    let mut mem = memory(rt.alloc())?;
    assert!(rt; mem.store(0x1021, Width::W16, 0x2221).is_ok());
    let mut cpu = cpu(1, 0, 0x1020, 0);
    let word = Place::Mem(Mem {
        base: Some(6),
        index: None,
        scale: 1,
        disp: 1,
    });
    let add = Insn::Arith {
        op: ArithOp::Add,
        w: Width::W16,
        dst: register(0),
        src: Operand::Place(word),
    };
    let push = Insn::Push {
        src: Operand::Place(register(0)),
    };
    assert!(rt; exec_plain(&add, &mut cpu, &mut mem).is_none());
    assert!(rt; exec_plain(&push, &mut cpu, &mut mem).is_none());
    assert_eq!(rt; cpu.regs[4], 0x1078);
    assert_eq!(rt; mem.load(0x1078, Width::W64), Ok(0x2222));
    assert_eq!(rt; cpu.rip, 7);
    Ok(())
}

// 150 bytes to 100 bytes further up: the last fifty are the first ones again.
#[test]
fn copies_onto_themselves(rt: HostRuntime) -> Result<(), Fail> {
    let mut mem = memory(rt.alloc())?;
    assert!(rt; mem.store(0x1000, Width::W32, 0x0302_0100).is_ok());
    assert!(rt; mem.store(0x1062, Width::W32, 0x6564_6362).is_ok());
    assert!(rt; mem.store(0x10f8, Width::W32, 0xfbfa_f9f8).is_ok());
    let mut cpu = cpu(0, 150, 0x1000, 0x1064);
    let insn = Insn::Movs {
        w: Width::W8,
        rep: true,
    };
    assert!(rt; exec_plain(&insn, &mut cpu, &mut mem).is_none());
    assert_eq!(rt;
        (cpu.regs[1], cpu.regs[6], cpu.regs[7]),
        (0, 0x1096, 0x10fa)
    );
    assert_eq!(rt; mem.load(0x1064, Width::W32), Ok(0x0302_0100));
    assert_eq!(rt; mem.load(0x10c6, Width::W32), Ok(0x0100_6362));
    assert_eq!(rt; mem.load(0x10f8, Width::W32), Ok(0xfbfa_0707));
    Ok(())
}

// Four hundred bytes meet the end of memory after 300; the whole iterations stay.
#[test]
fn stores_up_to_the_end(rt: HostRuntime) -> Result<(), Fail> {
    let mut mem = memory(rt.alloc())?;
    let mut cpu = cpu(0x1ab, 400, 0, 0x1000);
    let insn = Insn::Stos {
        w: Width::W8,
        rep: true,
    };
    assert_eq!(rt;
        exec_plain(&insn, &mut cpu, &mut mem),
        Some(Fault::Memory(0x112c))
    );
    assert_eq!(rt; (cpu.regs[1], cpu.regs[7]), (100, 0x112c));
    assert_eq!(rt; mem.load(0x1000, Width::W64), Ok(0xabab_abab_abab_abab));
    assert_eq!(rt; mem.load(0x1124, Width::W64), Ok(0xabab_abab_abab_abab));
    Ok(())
}
