//! Boards of claims.

ghost use Rattle.std.specs.Prelude.{◌≡◌, ◌∷◌, [], ◌<◌, ◌≤◌, ◌↔◌, ℕ, true, false, None, Some, length, map, replicate, slice_get, IsOk, IsTrue, IfErr, IfNone, IfOk, IfSome, OnErr, if◌then◌else◌};
ghost use Rattle.qccd_base.specs.FirstFailing.{first_failing};
ghost use Rattle.op_cells.specs.Numbering.{count_of};
ghost use Rattle.claim_core.specs.Board.{empty_hand, got_at, gave_at, hand_at, is_there, opening_board, slot_at, turn_at, width};
ghost use Rattle.claim_core.specs.Enabled.{AllFinished, IsEnabled, IsLeastUnfinished};
ghost use Rattle.claim_core.specs.declared.event.ActFault.TheVariants.{NotGot};
ghost use Rattle.claim_core.specs.declared.event.Event.TheVariants.{Begin, Give, Reach};
ghost use Rattle.claim_core.specs.Event.{Allowed, IsEvent, begun, fault, given, is_free, moved, not_free, reached, touched};
ghost use Rattle.claim_core.specs.History.{IsBoardOf};
ghost use Rattle.claim_core.specs.Sound.{IsWide};
ghost use Rattle.claim_core.specs.Coded.{Claims, Suits, is_enabled, is_finished};

use crate::event::{ActFault, Event};
use crate::flags::{flag, is_among, is_in_hand, left, needed, touched_by};
use op_cells::{count_of, index_of};
use qccd_base::{NoMemory, Res};
use qccd_program::Program;
use std::alloc::Global;
use std::marker::Model;

/// The turn that a resource has come to, and who holds it.
#[derive(Clone, Copy, Debug, PartialEq, Eq)]
pub struct Slot {
    /// How often it was given back.
    pub turn: u32,
    /// The worker that holds it.
    pub holder: Option<u16>,
}

// What a worker has in hand, and which resources it got and gave, by their numbers.
#[derive(Debug, Drop)]
struct Hand {
    op: Option<u32>,
    got: Vec<bool>,
    gave: Vec<bool>,
}

impl Model for Hand {
    ghost use Rattle.claim_core.specs.Board.{HandData};

    ghost Value = { HandData };

    ghost view = { λ a. record { op = a.op; got = a.got.items; gave = a.gave.items } };
}

/// Who holds which resource of a program, how often each was given back, and what each worker has in hand.
#[derive(Debug, Drop)]
pub struct Board {
    slots: Vec<Slot>,
    hands: Vec<Hand>,
}

impl Model for Board {
    ghost use Rattle.claim_core.specs.Board.{BoardData};

    ghost Value = { BoardData };

    ghost view = { λ a. record { slots = a.slots.items; hands = a.hands.items } };
}

impl Hand {
    // An empty hand, with flags for so many resources.
    fn empty(alloc: Global, count: usize) -> Result<Hand, NoMemory>
        ensures { IfOk result (λ h. h ≡ record { op = None; got = replicate count false; gave = replicate count false }) }
    {
        let got = vec![in alloc; false; count]?;
        let gave = vec![in alloc; false; count]?;
        Ok(Hand {
            op: None,
            got,
            gave,
        })
    }
}

impl Board {
    /// The board of a program before any event: all turns are 0, nothing is held, and the hands of all workers
    /// are empty.
    #[tactic(auto, using(crate::proofs::Coded::coded))]
    pub fn of(alloc: Global, program: &Program, workers: u16) -> Result<Board, NoMemory>
        ensures opening { IfOk result (λ b. b ≡ opening_board program.now workers) }
        ensures board { IfOk result (λ b. IsBoardOf program.now b) }
    {
        let count = count_of(program.machine(), program.bits());
        let free = Slot {
            turn: 0,
            holder: None,
        };
        let slots = vec![in alloc; free; count]?;
        let mut hands = Vec::new(alloc);
        for _ in 0..workers {
            hands.push(Hand::empty(alloc, count)?)?;
        }
        Ok(Board { slots, hands })
    }

    /// Does the event, or tells the first reason why it can't happen now; then the board stays as it was.
    #[tactic(auto, using(crate::proofs::Coded::boards))]
    pub fn act(&mut self, program: &Program, event: Event) -> Result<(), ActFault>
        requires board { IsBoardOf program.now self.old }
        requires there { IsEvent program.now self.old event }
        ensures ok { IsOk result → Allowed program.now self.old event self.new }
        ensures err { IfErr result (λ f. fault program.now self.old event ≡ Some f) }
        ensures unchanged { OnErr result (self.new ≡ self.old) }
        ensures board { IsBoardOf program.now self.new }
    {
        let _ops = program.ops();
        match self.fault_of(program, event) {
            Some(fault) => Err(fault),
            None => {
                self.make(program, event);
                Ok(())
            }
        }
    }

    /// The least operation that has not given all of its resources, and none where all have.
    #[tactic(auto, using(crate::proofs::Coded::boards))]
    pub fn least_unfinished(&self, program: &Program) -> Option<u32>
        requires board { IsBoardOf program.now self.now }
        ensures some { IfSome result (λ k. IsLeastUnfinished program.now self.now k) }
        ensures none { IfNone result (AllFinished program.now self.now) }
    {
        let count = program.ops().len() as u32;
        for k in 0..count {
            if !self.is_finished(program, k) {
                return Some(k);
            }
        }
        None
    }

    /// Whether each resource of the operation is free at its turn, or is held by it, or was given by it.
    #[tactic(auto, using(crate::proofs::Coded::boards))]
    pub fn is_enabled(&self, program: &Program, op: u32) -> bool
        requires board { IsBoardOf program.now self.now }
        requires there { op < length program.now.ops }
        ensures { IsTrue result ↔ IsEnabled program.now self.now op }
    {
        let _ops = program.ops();
        self.are_ready(program, op)
    }

    // The turn and the holder of a resource.
    #[tactic(auto, using(crate::proofs::Coded::coded))]
    fn slot(&self, program: &Program, r: Res) -> Slot
        requires there { is_there program.now r ≡ true }
        requires wide { IsWide program.now self.now }
        ensures { result ≡ slot_at program.now self.now r }
    {
        self.slots[index_of(program.machine(), r)]
    }

    // What the worker has in hand.
    fn hand(&self, worker: u16) -> Option<u32>
        requires { worker < length self.now.hands }
        ensures { result ≡ (hand_at self.now worker).op }
    {
        self.hands[usize::from(worker)].op
    }

    // Whether the worker's operation got the resource.
    #[tactic(auto, using(crate::proofs::Coded::coded))]
    fn got(&self, program: &Program, worker: u16, r: Res) -> bool
        requires there { is_there program.now r ≡ true }
        requires wide { IsWide program.now self.now }
        requires worker { worker < length self.now.hands }
        ensures { result ≡ got_at program.now self.now worker r }
    {
        flag(self.hands[usize::from(worker)].got.as_slice(), program, r)
    }

    // Whether the worker's operation gave the resource.
    #[tactic(auto, using(crate::proofs::Coded::coded))]
    fn gave(&self, program: &Program, worker: u16, r: Res) -> bool
        requires there { is_there program.now r ≡ true }
        requires wide { IsWide program.now self.now }
        requires worker { worker < length self.now.hands }
        ensures { result ≡ gave_at program.now self.now worker r }
    {
        flag(self.hands[usize::from(worker)].gave.as_slice(), program, r)
    }

    // Why the operation's i-th resource, which is r, is not free at its turn.
    #[tactic(auto, using(crate::proofs::Coded::coded))]
    fn why_not_free(&self, program: &Program, op: u32, i: usize, r: Res) -> Option<ActFault>
        requires claims { Claims program.now }
        requires wide { IsWide program.now self.now }
        requires op { op < length program.now.ops }
        requires at { slice_get (touched program.now.ops op) i ≡ Some r }
        ensures { result ≡ (if is_free program.now self.now op r then None else Some (not_free program.now self.now op r)) }
    {
        let slot = self.slot(program, r);
        let needed = needed(program, op, i, r);
        if slot.turn != needed {
            return Some(ActFault::NotNow {
                res: r,
                turn: slot.turn,
                needed,
            });
        }
        match slot.holder {
            Some(by) => Some(ActFault::Held { res: r, by }),
            None => None,
        }
    }

    // The least resource of the operation that is not free at its turn, and why.
    #[tactic(auto, using(crate::proofs::Coded::coded))]
    fn first_not_free(&self, program: &Program, op: u32) -> Option<ActFault>
        requires claims { Claims program.now }
        requires wide { IsWide program.now self.now }
        requires op { op < length program.now.ops }
        ensures { result ≡ first_failing (map (λ q. (not_free program.now self.now op q, is_free program.now self.now op q)) (touched program.now.ops op)) }
    {
        let touched = touched_by(program, op);
        for (i, r) in touched.iter().enumerate() {
            let why = self.why_not_free(program, op, i, *r);
            if why.is_some() {
                return why;
            }
        }
        None
    }

    // The least resource of the operation that it did not get.
    #[tactic(auto, using(crate::proofs::Coded::coded))]
    fn first_not_got(&self, program: &Program, worker: u16, op: u32) -> Option<ActFault>
        requires claims { Claims program.now }
        requires wide { IsWide program.now self.now }
        requires worker { worker < length self.now.hands }
        requires op { op < length program.now.ops }
        ensures { result ≡ first_failing (map (λ q. (NotGot q, got_at program.now self.now worker q)) (touched program.now.ops op)) }
    {
        let touched = touched_by(program, op);
        for r in touched {
            if !self.got(program, worker, *r) {
                return Some(ActFault::NotGot { res: *r });
            }
        }
        None
    }

    // Why the worker can't begin the operation.
    #[tactic(auto, using(crate::proofs::Coded::coded))]
    fn begin_fault(&self, program: &Program, worker: u16, op: u32) -> Option<ActFault>
        requires claims { Claims program.now }
        requires wide { IsWide program.now self.now }
        requires worker { worker < length self.now.hands }
        requires op { op < length program.now.ops }
        ensures { result ≡ fault program.now self.now (Begin worker op) }
    {
        let hand = self.hand(worker);
        if hand.is_some() {
            return Some(ActFault::NotYours { worker, hand });
        }
        self.first_not_free(program, op)
    }

    // Why the worker can't take the resource for its operation.
    #[tactic(auto, using(crate::proofs::Coded::coded))]
    fn reach_fault(&self, program: &Program, worker: u16, op: u32, r: Res) -> Option<ActFault>
        requires claims { Claims program.now }
        requires wide { IsWide program.now self.now }
        requires worker { worker < length self.now.hands }
        requires op { op < length program.now.ops }
        ensures { result ≡ fault program.now self.now (Reach worker op r) }
    {
        let hand = self.hand(worker);
        if !is_in_hand(hand, op) {
            return Some(ActFault::NotYours { worker, hand });
        }
        if !is_among(touched_by(program, op), r) {
            return Some(ActFault::Untouched { res: r });
        }
        if self.got(program, worker, r) {
            return Some(ActFault::Again { res: r });
        }
        None
    }

    // Why the worker can't give the resource back.
    #[tactic(auto, using(crate::proofs::Coded::coded))]
    fn give_fault(&self, program: &Program, worker: u16, op: u32, r: Res) -> Option<ActFault>
        requires claims { Claims program.now }
        requires wide { IsWide program.now self.now }
        requires worker { worker < length self.now.hands }
        requires op { op < length program.now.ops }
        ensures { result ≡ fault program.now self.now (Give worker op r) }
    {
        let hand = self.hand(worker);
        if !is_in_hand(hand, op) {
            return Some(ActFault::NotYours { worker, hand });
        }
        if !is_among(touched_by(program, op), r) {
            return Some(ActFault::Untouched { res: r });
        }
        let missing = self.first_not_got(program, worker, op);
        if missing.is_some() {
            return missing;
        }
        if self.gave(program, worker, r) {
            return Some(ActFault::Again { res: r });
        }
        None
    }

    // Why an event can't happen.
    #[tactic(auto, using(crate::proofs::Coded::boards))]
    fn fault_of(&self, program: &Program, event: Event) -> Option<ActFault>
        requires suits { Suits program.now self.now }
        requires there { IsEvent program.now self.now event }
        ensures { result ≡ fault program.now self.now event }
    {
        match event {
            Event::Begin { worker, op } => self.begin_fault(program, worker, op),
            Event::Reach { worker, op, res } => self.reach_fault(program, worker, op, res),
            Event::Give { worker, op, res } => self.give_fault(program, worker, op, res),
        }
    }

    // The worker has the operation, and holds its first resource.
    #[tactic(auto, using(crate::proofs::Coded::coded))]
    fn begin(&mut self, program: &Program, worker: u16, op: u32, r: Res)
        requires there { is_there program.now r ≡ true }
        requires wide { IsWide program.now self.old }
        requires worker { worker < length self.old.hands }
        ensures { self.new ≡ begun program.now self.old worker op (r ∷ []) }
    {
        let i = index_of(program.machine(), r);
        self.slots[i].holder = Some(worker);
        let hand = &mut self.hands[usize::from(worker)];
        hand.op = Some(op);
        hand.got.fill(false);
        hand.gave.fill(false);
        hand.got[i] = true;
    }

    // The worker holds one more resource.
    #[tactic(auto, using(crate::proofs::Coded::coded))]
    fn reach(&mut self, program: &Program, worker: u16, r: Res)
        requires there { is_there program.now r ≡ true }
        requires wide { IsWide program.now self.old }
        requires worker { worker < length self.old.hands }
        ensures { self.new ≡ reached program.now self.old worker r }
    {
        let i = index_of(program.machine(), r);
        self.slots[i].holder = Some(worker);
        self.hands[usize::from(worker)].got[i] = true;
    }

    // The worker gave a resource back; the last one empties the hand.
    #[tactic(auto, using(crate::proofs::Coded::coded))]
    fn give(&mut self, program: &Program, worker: u16, op: u32, r: Res)
        requires there { is_there program.now r ≡ true }
        requires wide { IsWide program.now self.old }
        requires worker { worker < length self.old.hands }
        requires op { op < length program.now.ops }
        requires claims { Claims program.now }
        requires few { turn_at program.now self.old r < 4194304 }
        ensures { self.new ≡ given program.now self.old worker op r }
    {
        let i = index_of(program.machine(), r);
        let turn = self.slots[i].turn;
        self.slots[i] = Slot {
            turn: turn + 1,
            holder: None,
        };
        let hand = &mut self.hands[usize::from(worker)];
        hand.gave[i] = true;
        hand.op = left(hand.gave.as_slice(), program, op);
    }

    // Begins with the first resource of the operation.
    #[tactic(auto, using(crate::proofs::Coded::boards))]
    fn make_begin(&mut self, program: &Program, worker: u16, op: u32)
        requires claims { Claims program.now }
        requires wide { IsWide program.now self.old }
        requires worker { worker < length self.old.hands }
        requires op { op < length program.now.ops }
        ensures { self.new ≡ moved program.now self.old (Begin worker op) }
    {
        if let [r, ..] = touched_by(program, op) {
            self.begin(program, worker, op, *r);
        }
    }

    // What a granted event makes.
    #[tactic(auto, using(crate::proofs::Coded::boards))]
    fn make(&mut self, program: &Program, event: Event)
        requires suits { Suits program.now self.old }
        requires there { IsEvent program.now self.old event }
        requires granted { fault program.now self.old event ≡ None }
        ensures { self.new ≡ moved program.now self.old event }
    {
        match event {
            Event::Begin { worker, op } => self.make_begin(program, worker, op),
            Event::Reach { worker, op: _, res } => self.reach(program, worker, res),
            Event::Give { worker, op, res } => self.give(program, worker, op, res),
        }
    }

    // Whether the operation gave all that it touches.
    #[tactic(auto, using(crate::proofs::Coded::coded))]
    fn is_finished(&self, program: &Program, op: u32) -> bool
        requires claims { Claims program.now }
        requires wide { IsWide program.now self.now }
        requires op { op < length program.now.ops }
        ensures { result ≡ is_finished program.now self.now op }
    {
        let touched = touched_by(program, op);
        for (i, r) in touched.iter().enumerate() {
            if self.slot(program, *r).turn <= needed(program, op, i, *r) {
                return false;
            }
        }
        true
    }

    // Whether each resource of the operation has come to its turn or past it. At its turn the resource is free
    // or the operation holds it, and past it the operation gave it.
    #[tactic(auto, using(crate::proofs::Coded::coded))]
    fn are_ready(&self, program: &Program, op: u32) -> bool
        requires claims { Claims program.now }
        requires wide { IsWide program.now self.now }
        requires op { op < length program.now.ops }
        ensures { result ≡ is_enabled program.now self.now op }
    {
        let touched = touched_by(program, op);
        for (i, r) in touched.iter().enumerate() {
            if self.slot(program, *r).turn < needed(program, op, i, *r) {
                return false;
            }
        }
        true
    }
}
