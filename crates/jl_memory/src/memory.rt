// A folder in memory, in which others move between the calls: its making, what it tells, and the
// steps of its calls.
ghost use Rattle.std.specs.Prelude.{◌≡◌, ◌≤◌, [], true, false, length, take, OnOk, OnErr, IfOk, IfSome, All, ◌⊎◌};
ghost use Rattle.std.specs.List.{flat_map};
ghost use Rattle.std.specs.Option.{option_copied};
ghost use Rattle.jl_folder.specs.State.{IsForeign, IsState, bytes_at, is_folder};
ghost use Rattle.jl_folder.specs.OpenTable.{opens_of};
ghost use Rattle.jl_folder.specs.Calls.{AppendsBytes, IsMade};
ghost use Rattle.jl_memory.specs.Tables.{state_of};
ghost use Rattle.jl_memory.specs.Memory.{mem_state, mem_history, IsTold};
ghost use Rattle.jl_memory.specs.Scripts.{named_in, own_count, is_failing, is_cut, fails, torn_of, CutsAppend};
ghost use Rattle.jl_memory.specs.Steps.{LetsOthers, Begins, Acts, MakesMove, Stays, AddsToNode};

use crate::disk::Disk;
use crate::script::{OtherMoves, Stop, count_own, next_others, numbers_named};
use crate::tables::node_of;
use crate::tree::Tree;
use jl_folder::{Appended, FileNo, Move, OpenFile, Place, file_at};
use jl_text::{Bytes, Path, Token};
use std::alloc::{AllocError, Global};

/// A folder in memory, which tells all. The moves of others under a number are made before its call
/// of that number, counted from 0; one that isn't allowed at its turn is left out, and so is one
/// for which there is no memory, which is counted.
#[derive(Drop)]
pub struct MemFolder {
    pub(crate) alloc: Global,
    pub(crate) token: Token,
    pub(crate) disk: Disk,
    pub(crate) opens: Vec<Option<OpenFile>>,
    pub(crate) others: Vec<OtherMoves>,
    pub(crate) named: Vec<u64>,
    pub(crate) failing: Vec<u64>,
    pub(crate) stop: Option<Stop>,
    pub(crate) begun: usize,
    pub(crate) calls: u64,
    pub(crate) faults: u64,
}

impl MemFolder {
    /// A folder that begins as the tree. The calls in `failing` fail, and make no move; `close`
    /// closes all the same.
    pub fn new(
        alloc: Global,
        token: Token,
        start: Tree,
        others: Vec<OtherMoves>,
        failing: Vec<u64>,
        stop: Option<Stop>,
    ) -> Result<MemFolder, AllocError>
        requires start { IsState (state_of start) }
        requires foreign { All (λ o. IsForeign token o.1.items) others.items }
        ensures told { IfOk result IsTold }
        ensures history { IfOk result
            (λ m. mem_history m ≡ record { start = state_of start; trace = [] }) }
        ensures token { IfOk result (λ m. m.token ≡ token) }
        ensures opens { IfOk result (λ m. m.opens.items ≡ []) }
        ensures counts { IfOk result (λ m. (m.faults ≡ 0) × (m.disk.unmade ≡ 0) × (m.begun ≡ 0)) }
        ensures named { IfOk result
            (λ m. m.named.items ≡ flat_map (λ o. named_in o.1.items) others.items) }
        ensures script { IfOk result
            (λ m. (m.others ≡ others) × (m.failing ≡ failing) × (m.stop ≡ stop) × (m.calls ≡ 0)) }
    {
        let named = numbers_named(alloc, others.as_slice())?;
        let disk = Disk::new(alloc, start)?;
        Ok(MemFolder {
            alloc,
            token,
            disk,
            opens: Vec::new(alloc),
            others,
            named,
            failing,
            stop,
            begun: 0,
            calls: 0,
            faults: 0,
        })
    }

    /// A further run, on what this one left: its history goes on, and nothing is open.
    pub fn next_run(
        self,
        token: Token,
        others: Vec<OtherMoves>,
        failing: Vec<u64>,
        stop: Option<Stop>,
    ) -> Result<MemFolder, AllocError>
        requires { All (λ o. IsForeign token o.1.items) others.items }
        ensures told { IsTold self → IfOk result IsTold }
        ensures history { IfOk result (λ m. mem_history m ≡ mem_history self) }
        ensures token { IfOk result (λ m. m.token ≡ token) }
        ensures opens { IfOk result (λ m. m.opens.items ≡ []) }
        ensures counts { IfOk result (λ m. (m.faults ≡ 0) × (m.disk.unmade ≡ self.disk.unmade)
            × (m.begun ≡ length self.disk.trace.items)) }
        ensures named { IfOk result
            (λ m. m.named.items ≡ flat_map (λ o. named_in o.1.items) others.items) }
        ensures script { IfOk result
            (λ m. (m.others ≡ others) × (m.failing ≡ failing) × (m.stop ≡ stop) × (m.calls ≡ 0)) }
    {
        let alloc = self.alloc;
        let disk = self.disk;
        let named = numbers_named(alloc, others.as_slice())?;
        let begun = disk.trace.len();
        Ok(MemFolder {
            alloc,
            token,
            disk,
            opens: Vec::new(alloc),
            others,
            named,
            failing,
            stop,
            begun,
            calls: 0,
            faults: 0,
        })
    }

    /// The bytes of the file that the path names.
    pub fn bytes_at(&self, path: &Path) -> Option<&[u8]>
        ensures { IsTold self.now → option_copied result ≡ bytes_at (mem_state self.now) path.now }
    {
        match self.disk.place(path.parts()) {
            Some(Place::File(number)) => match node_of(self.disk.nodes.as_slice(), number) {
                Some(node) => Some(node.bytes.as_slice()),
                None => None,
            },
            Some(Place::Folder) => None,
            None => None,
        }
    }

    /// Whether the path names a folder.
    pub fn is_folder(&self, path: &Path) -> bool
        ensures { IsTold self.now → result ≡ is_folder (mem_state self.now) path.now }
    {
        self.disk.is_folder(path.parts())
    }

    /// How many moves this run made.
    pub fn moves(&self) -> u64
        ensures { result ≡ own_count self.now }
    {
        match self.disk.trace.as_slice().get(self.begun..) {
            Some(made) => count_own(&self.token, made),
            None => 0,
        }
    }

    /// How many faults there were.
    pub fn faults(&self) -> u64
        ensures { result ≡ self.now.faults }
    {
        self.faults
    }

    /// How many moves of others, which were allowed, were left out for want of memory, up to the
    /// last value of a count.
    pub fn unmade(&self) -> u64
        ensures { result ≡ self.now.disk.unmade }
    {
        self.disk.unmade
    }

    // The moves of others that come before the next call.
    fn let_others_move(&mut self)
        ensures { LetsOthers self.old self.new }
    {
        while let Some(i) = next_others(self.others.as_slice(), self.calls) {
            let group = self.others.remove(i);
            self.disk.let_moves(group.1);
        }
    }

    // Uses up a number, before which others move. Says whether it is one of those that fail.
    pub(crate) fn take_number(&mut self) -> bool
        ensures begins { Begins false self.old self.new }
        ensures answer { result ≡ is_failing self.old }
    {
        self.let_others_move();
        let call = self.calls;
        self.calls = call.saturating_add(1);
        self.failing.contains(&call)
    }

    // Begins an append. Says whether its number is one of those that fail.
    pub(crate) fn start_append(&mut self) -> bool
        ensures begins { Begins result self.old self.new }
        ensures answer { result ≡ is_failing self.old }
    {
        let failed = self.take_number();
        if failed {
            self.faults = self.faults.saturating_add(1);
        }
        failed
    }

    // Whether the run is cut off before this call.
    pub(crate) fn is_stopped(&self) -> bool
        ensures { result ≡ is_cut self.now }
    {
        match self.stop {
            Some(stop) => self.moves() >= stop.moves,
            None => false,
        }
    }

    // Begins a call that is no append. Says whether it is to fail.
    pub(crate) fn begin(&mut self) -> bool
        ensures begins { Begins result self.old self.new }
        ensures answer { IsTold self.old → result ≡ fails self.old }
    {
        if self.start_append() {
            return true;
        }
        if self.is_stopped() {
            self.faults = self.faults.saturating_add(1);
            return true;
        }
        false
    }

    // How many bytes an append still adds at which the run is cut off: none, if that is past.
    fn torn_count(&self, length: usize) -> Option<usize>
        ensures exact { result ≡ torn_of self.now length }
        ensures within { IfSome result (λ k. k ≤ length) }
    {
        let stop = self.stop?;
        if self.moves() != stop.moves {
            return None;
        }
        if stop.torn < length as u64 {
            Some(stop.torn as usize)
        } else {
            Some(length)
        }
    }

    // Adds a piece to the file of this number. Says whether there was memory.
    pub(crate) fn add_piece(&mut self, number: FileNo, piece: &[u8]) -> bool
        requires { IsMade (opens_of self.old.opens.items) number.0 }
        ensures added { result ≡ true → AddsToNode number.0 piece.now self.old self.new }
        ensures none { result ≡ false → Stays self.old self.new }
    {
        let Some(file) = file_at(self.opens.as_slice(), number) else {
            unreachable!();
        };
        let Ok(copy) = Vec::from_slice(self.alloc, piece) else {
            return false;
        };
        match self.make(Move::Append(file.node, Bytes::new(copy))) {
            Ok(()) => true,
            Err(_) => false,
        }
    }

    // An append at which the run is cut off, or one after that.
    pub(crate) fn tear(&mut self, number: FileNo, bytes: &[u8]) -> Appended
        requires { IsMade (opens_of self.old.opens.items) number.0 }
        ensures acts { Acts (result ≡ Appended.Failed)
            (AppendsBytes number.0 bytes.now (opens_of self.old.opens.items) result) self.old
            self.new }
        ensures opens { self.new.opens.items ≡ self.old.opens.items }
        ensures cut { CutsAppend self.old self.new number.0 bytes.now result
            (torn_of self.old (length bytes.now)) }
        ensures some { (result ≡ Appended.Failed) ⊎ (result ≡ Appended.NoMemory) }
    {
        let Some(count) = self.torn_count(bytes.len()) else {
            self.faults = self.faults.saturating_add(1);
            return Appended::Failed;
        };
        if !self.add_piece(number, &bytes[..count]) {
            return Appended::NoMemory;
        }
        self.faults = self.faults.saturating_add(1);
        Appended::Failed
    }

    // Makes a move of its own.
    pub(crate) fn make(&mut self, change: Move) -> Result<(), AllocError>
        ensures made { OnOk result (MakesMove change self.old self.new) }
        ensures kept { OnErr result (Stays self.old self.new) }
    {
        let token = self.token.copy()?;
        self.disk.make(token, change)?;
        Ok(())
    }
}
