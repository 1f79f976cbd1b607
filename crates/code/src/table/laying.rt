// Laying code, one function behind another.
ghost use Rattle.std.specs.Prelude.{◌≡◌, ℕ, suc, ◌+◌, ◌<◌, ◌≤◌, ◌≢◌, ◌⊎◌, false, List, [], ◌∷◌, ◌++◌, map, length, take, pos, is_ok, MatchResult, OnOk, OnErr, slice_index_or, slice_set};
ghost use Rattle.text.specs.Memory.{Memory};
ghost use Rattle.machine.specs.Instr.{Instr, Program, instr};
ghost use Rattle.code.specs.Programs.{meant, program_of};
ghost use Rattle.code.specs.Laying.{origin, end_of, Lays, has_room, has_function_room, jump_of, landed_of};

use crate::table::{Extent, FUNCTIONS, Full, Open, OpenJump, Place, Record, Sealed};
use arrayvec::ArrayVec;
use machine::instruction::{Instruction, Offset, Register};

// A jump by n, if the register holds 0 or, without one, in any case.
fn jump_of(test: Option<Register>, n: Offset) -> Instruction
    ensures as_asked { (m : Memory) → instr m result ≡ jump_of test n.0 }
{
    match test {
        None => Instruction::Jmp(n),
        Some(a) => Instruction::IfZero(a, n),
    }
}

// The table is no part of `Open`: the caller lends it anew with each call. A record is written by its index, since after a `get_mut` no proof knows the others.
impl Open {
    // Nothing laid: function 0 begins at the first record.
    #[tactic(auto, unfolding(crate::specs::Programs::code_at, crate::specs::Programs::program_at))]
    pub fn new() -> Open
        ensures nothing_laid { (m : Memory) (xs : List Record) → Lays m xs result [] [] }
    {
        Open {
            finished: ArrayVec::new(),
            current: Extent::default(),
        }
    }

    // How many records the function under way has.
    pub fn here(&self) -> u32
        ensures length { (m : Memory) (xs : List Record) (P : Program) (c : List Instr) → Lays m xs self.now P c → result ≡ length c }
    {
        self.current.len
    }

    // One more record of the function under way.
    pub fn lay(&mut self, records: &mut [Record], item: Record) -> Result<(), Full>
        ensures refused { is_ok result ≡ has_room self.old (length records.old) }
        ensures written { OnOk result ((end_of self.old.current < length records.old) × (records.new ≡ slice_set records.old (end_of self.old.current) item) × (end_of self.new.current ≡ suc (end_of self.old.current))) }
        ensures laid { (m : Memory) (P : Program) (c : List Instr) → Lays m records.old self.old P c → MatchResult result (λ _. Lays m records.new self.new P (c ++ meant m item ∷ [])) (λ _. Lays m records.new self.new P c) }
        ensures elsewhere { (i : ℕ) (d : Record) → i ≢ end_of self.old.current → slice_index_or records.new i d ≡ slice_index_or records.old i d }
        ensures kept_where_refused { OnErr result ((self.new ≡ self.old) × (records.new ≡ records.old)) }
    {
        let Extent { start, len } = self.current;
        let end = self.current.end();
        if end >= records.len() as u64 || len >= i32::MAX as u32 {
            return Err(Full(()));
        }
        records[end as usize] = item;
        self.current = Extent {
            start,
            len: len + 1,
        };
        Ok(())
    }

    // Instructions of one origin, one behind another.
    pub fn lay_all(
        &mut self,
        records: &mut [Record],
        code: &[Instruction],
        origin: u16,
    ) -> Result<(), Full>
        ensures laid { (m : Memory) (P : Program) (c : List Instr) → Lays m records.old self.old P c → MatchResult result (λ _. Lays m records.new self.new P (c ++ map (instr m) code.now)) (λ _. (k : ℕ) × (k < length code.now) × Lays m records.new self.new P (c ++ map (instr m) (take k code.now))) }
        ensures reached { OnOk result (end_of self.new.current ≡ end_of self.old.current + length code.now) }
        ensures of_the_origin { (i : ℕ) (d : Record) → end_of self.old.current ≤ i → i < end_of self.new.current → (slice_index_or records.new i d).origin ≡ origin }
        ensures elsewhere { (i : ℕ) (d : Record) → (i < end_of self.old.current) ⊎ (end_of self.new.current ≤ i) → slice_index_or records.new i d ≡ slice_index_or records.old i d }
        ensures refused { OnErr result (has_room self.new (length records.new) ≡ false) }
    {
        for instruction in code {
            let item = Record {
                instruction: *instruction,
                origin,
            };
            self.lay(records, item)?;
        }
        Ok(())
    }

    // A jump whose target is not known yet.
    pub fn lay_jump(
        &mut self,
        records: &mut [Record],
        test: Option<Register>,
        origin: u16,
    ) -> Result<OpenJump, Full>
        ensures refused { is_ok result ≡ has_room self.old (length records.old) }
        ensures laid { (m : Memory) (P : Program) (c : List Instr) → Lays m records.old self.old P c → MatchResult result (λ j. (j.at ≡ length c) × (j.test ≡ test) × Lays m records.new self.new P (c ++ jump_of test (pos 0) ∷ [])) (λ _. Lays m records.new self.new P c) }
        ensures elsewhere { (i : ℕ) (d : Record) → i ≢ end_of self.old.current → slice_index_or records.new i d ≡ slice_index_or records.old i d }
        ensures kept_where_refused { OnErr result ((self.new ≡ self.old) × (records.new ≡ records.old)) }
    {
        let at = self.here();
        let jump = Record {
            instruction: jump_of(test, Offset(0)),
            origin,
        };
        self.lay(records, jump)?;
        Ok(OpenJump { at, test })
    }

    // The function under way is finished, and the next one begins.
    pub fn next_function(&mut self) -> Result<(), Full>
        ensures refused { is_ok result ≡ has_function_room self.old }
        ensures begun { (m : Memory) (xs : List Record) (P : Program) (c : List Instr) → Lays m xs self.old P c → MatchResult result (λ _. Lays m xs self.new (P ++ c ∷ []) []) (λ _. Lays m xs self.new P c) }
        ensures kept_where_refused { OnErr result (self.new ≡ self.old) }
    {
        let Ok(start) = u32::try_from(self.current.end()) else {
            return Err(Full(()));
        };
        if self.finished.len() + 1 >= FUNCTIONS {
            return Err(Full(()));
        }
        self.finished.push(self.current);
        self.current = Extent { start, len: 0 };
        Ok(())
    }

    // The code can be run from now on, and nothing more is laid.
    pub fn seal(self) -> Sealed
        ensures all_that_was_laid { (m : Memory) (xs : List Record) (P : Program) (c : List Instr) → Lays m xs self P c → program_of m result xs ≡ P ++ c ∷ [] }
    {
        let Open {
            mut finished,
            current,
        } = self;
        finished.push(current);
        let functions = finished.len();
        let mut extents = [current; FUNCTIONS];
        extents[..functions].copy_from_slice(&finished);
        Sealed { functions, extents }
    }
}

impl OpenJump {
    // The jump leads behind what is laid so far.
    pub fn land(self, code: &Open, records: &mut [Record])
        ensures landed { (m : Memory) (P : Program) (c : List Instr) → Lays m records.old code.now P c → Lays m records.new code.now P (landed_of self.test self.at c) }
        ensures elsewhere { (i : ℕ) (d : Record) → i ≢ code.now.current.start + self.at → slice_index_or records.new i d ≡ slice_index_or records.old i d }
        ensures origins_kept { map origin records.new ≡ map origin records.old }
    {
        let OpenJump { at, test } = self;
        let Some(i) = code.current.index(Place(u64::from(at))) else {
            return;
        };
        if i < records.len() {
            let n = code.current.len - at - 1;
            records[i].instruction = jump_of(test, Offset(n as i32));
        }
    }

    // There is no code to land in: it is given up.
    pub fn lost(self, full: Full) -> Full
        ensures as_given { result ≡ full }
    {
        let OpenJump { at: _, test: _ } = self;
        full
    }
}
