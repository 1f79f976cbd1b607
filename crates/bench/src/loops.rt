// Loops that count, in measured steps: in registers, in a table, by calls.
use anyhow::anyhow;
use buckets::{BucketStore, Chain, Chained};
use calls::frame::FIRST;
use calls::program::Code;
use code::table::{Full, Open, Record, Sealed, UNLAID};
use effects::literals::Literals;
use list::{ListStore, Pair};
use machine::instruction::{Instruction, Offset, Register};
use std::time::Instant;
use store::Store;
use store::capacity::Capacity;
use store::value::{Identifier, Value};
use text::span::{Space, Span};
use vm::run::Run;

const ROUNDS: Value = Value::Int(5000000);

const FIELD: Value = Value::Str(Span {
    space: Space::Texts,
    start: 0,
    len: 6,
});

const A: Register = Register(0);

const B: Register = Register(1);

const C: Register = Register(2);

const D: Register = Register(3);

const E: Register = Register(4);

const F: Register = Register(5);

const IN_REGISTERS: [Instruction; 8] = [
    Instruction::Const(A, Value::Int(0)),
    Instruction::Const(B, Value::Int(1)),
    Instruction::Const(C, ROUNDS),
    Instruction::Lt(D, A, C),
    Instruction::IfZero(D, Offset(2)),
    Instruction::Add(A, A, B),
    Instruction::Jmp(Offset(-4)),
    Instruction::Ret(A),
];

const IN_A_TABLE: [Instruction; 13] = [
    Instruction::Const(A, Value::Int(0)),
    Instruction::Const(B, Value::Int(1)),
    Instruction::Const(C, ROUNDS),
    Instruction::MkTab(E),
    Instruction::Const(F, FIELD),
    Instruction::WrTab(E, F, A),
    Instruction::RdTab(A, E, F),
    Instruction::Lt(D, A, C),
    Instruction::IfZero(D, Offset(3)),
    Instruction::Add(A, A, B),
    Instruction::WrTab(E, F, A),
    Instruction::Jmp(Offset(-6)),
    Instruction::Ret(A),
];

const BY_CALLS: [Instruction; 10] = [
    Instruction::Const(A, Value::Int(0)),
    Instruction::Const(B, Value::Ident(Identifier(1))),
    Instruction::Const(C, ROUNDS),
    Instruction::Lt(D, A, C),
    Instruction::IfZero(D, Offset(4)),
    Instruction::Mov(F, A),
    Instruction::Call(B, F, F),
    Instruction::Mov(A, F),
    Instruction::Jmp(Offset(-6)),
    Instruction::Ret(A),
];

const ONE_MORE: [Instruction; 3] = [
    Instruction::Const(B, Value::Int(1)),
    Instruction::Add(A, A, B),
    Instruction::Ret(A),
];

// As `machine_listings` lays its functions: five calls, which a function for both would only rename.
fn laid(
    records: &mut [Record],
    main: &[Instruction],
    callee: &[Instruction],
) -> Result<Sealed, Full> {
    let mut open = Open::new();
    open.lay_all(records, main, 0)?;
    open.next_function()?;
    open.lay_all(records, callee, 0)?;
    Ok(open.seal())
}

// The steps of a run to its end, over registers that are unset and a store that is empty.
fn run<S: Store>(sealed: &Sealed, records: &[Record], store: &mut S) -> u32 {
    let mut callers = [FIRST; 31];
    let mut registers = [None; 4096];
    let mut strings = [0u8; 32768];
    let mut output = [0u8; 16384];
    let mut run = Run::new(&mut callers, &mut registers, &mut strings, &mut output);
    let code = Code {
        sealed,
        records,
        literals: Literals {
            fixed: b"",
            texts: b"@count",
        },
    };
    store.clear();
    match run.steps(100000000, code, store) {
        Ok(ran) => ran.steps,
        Err(_) => 0,
    }
}

fn time<S: Store>(
    rt: &HostRuntime,
    name: &str,
    main: &[Instruction],
    store: &mut S,
) -> anyhow::Result<()> {
    let mut records = [UNLAID; 16];
    let Ok(code) = laid(&mut records, main, &ONE_MORE) else {
        return Err(anyhow!("the code table is full"));
    };
    let start = Instant::now(rt)?;
    let total = run(&code, &records, store);
    let micros = start.elapsed(rt)?.as_micros().min(0xffff_ffff) as u64;
    let rate = if micros == 0 {
        0
    } else {
        total as u64 * 1000000 / micros
    };
    println!(rt; "{name}\t{total}\t{rate}")?;
    Ok(())
}

fn loops<S: Store>(rt: &HostRuntime, store: &mut S) -> anyhow::Result<()> {
    time(rt, "registers", &IN_REGISTERS, store)?;
    time(rt, "table", &IN_A_TABLE, store)?;
    time(rt, "calls", &BY_CALLS, store)
}

pub fn measure(rt: &HostRuntime) -> anyhow::Result<()> {
    let mut pairs = [Pair::default(); 16384];
    let mut entries = [Chained::default(); 16384];
    let mut chains = [Chain::default(); 16384];
    let capacity = Capacity::new(4096, 16384)?;
    println!(rt; "loop\tsteps\ta second")?;
    println!(rt; "over the list store")?;
    loops(rt, &mut ListStore::new(&mut pairs, capacity))?;
    println!(rt; "over the bucket store")?;
    loops(
        rt,
        &mut BucketStore::new(&mut entries, &mut chains, capacity),
    )
}
