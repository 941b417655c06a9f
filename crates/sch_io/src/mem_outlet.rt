//! An outlet in memory.

ghost use Rattle.std.specs.Prelude.{◌≡◌, ◌≤◌, ◌<◌, ◌+◌, ◌++◌, ◌↔◌, [], Some, None, drop, length, vec_len, vec_capacity, IfOk, IsSome, IfSome, IsTrue};
ghost use Rattle.std.specs.Bool.{OnTrue, OnFalse};
ghost use Rattle.std.specs.Option.{option_map};
ghost use Rattle.sch_io.specs.Answers.{AnswersNext, IsRefusal, IsWithin, taken};
ghost use Rattle.sch_io.specs.Counters.{Rose, raised};
ghost use Rattle.sch_io.specs.Told.{Tells};

use crate::counter::raise;
use crate::outlet::Outlet;
use sch_word::{Answer, Mem};
use std::alloc::Global;

/// An outlet that keeps in memory what it takes, up to a number of bytes, and answers by a plan. A
/// write that would take more than there is room for fails, and from then on the outlet tells nothing.
#[derive(Drop)]
pub struct MemOutlet {
    bytes: Vec<u8>,
    plan: Vec<Answer>,
    next: usize,
    room: usize,
    tells: bool,
    faults: u64,
    ghost fits: { vec_len bytes + room ≤ vec_capacity bytes },
}

impl MemOutlet {
    ghost use Rattle.sch_io.specs.InMemory.{faults_met, room_left, told_bytes, told_left};

    /// An outlet that answers by `plan` and then takes whole pieces, with room for `room` bytes.
    pub fn new(alloc: Global, plan: &[Answer], room: usize) -> Result<MemOutlet, Mem>
        ensures bytes { IfOk result (λ outlet. told_bytes outlet ≡ Some []) }
        ensures left { IfOk result (λ outlet. told_left outlet ≡ Some plan.now) }
        ensures room { IfOk result (λ outlet. room_left outlet ≡ room) }
        ensures faults { IfOk result (λ outlet. faults_met outlet ≡ 0) }
    {
        Ok(MemOutlet {
            bytes: Vec::with_capacity(alloc, room)?,
            plan: Vec::from_slice(alloc, plan)?,
            next: 0,
            room,
            tells: true,
            faults: 0,
        })
    }

    /// All that was taken.
    pub fn taken(&self) -> &[u8]
        ensures { IfSome (told_bytes self.now) (λ bytes. result.now ≡ bytes) }
    {
        &self.bytes
    }

    /// All that was taken, and `None` where the outlet has ceased to tell it.
    pub fn told(&self) -> Option<&[u8]>
        ensures { option_map (λ bytes. bytes.now) result ≡ told_bytes self.now }
    {
        if self.tells { Some(&self.bytes) } else { None }
    }

    // Uses up the answer that is held ready.
    fn next_answer(&mut self, offered: usize) -> Answer
        ensures answer { AnswersNext offered result (drop self.old.next self.old.plan.items) (drop self.new.next self.new.plan.items) }
        ensures same { self.new ≡ record self.old { next = self.new.next } }
        ensures within { IsWithin result offered }
    {
        match self.plan.get(self.next) {
            Some(Answer::Took(count)) => {
                self.next += 1;
                Answer::Took((*count).min(offered))
            }
            Some(Answer::Failed) => {
                self.next += 1;
                Answer::Failed
            }
            None => Answer::Took(offered),
        }
    }

    // Keeps the bytes, where there is room.
    fn keep(&mut self, bytes: &[u8]) -> bool
        ensures kept { OnTrue result ((self.new.bytes.items ≡ self.old.bytes.items ++ bytes.now) × (self.new.room + length bytes.now ≡ self.old.room)) }
        ensures full { OnFalse result ((self.old.room < length bytes.now) × (self.new.room ≡ self.old.room)) }
        ensures plan { (self.new.plan ≡ self.old.plan) × (self.new.next ≡ self.old.next) }
        ensures others { (self.new.tells ≡ self.old.tells) × (self.new.faults ≡ self.old.faults) }
    {
        if self.room < bytes.len() {
            return false;
        }
        self.room -= bytes.len();
        self.bytes.extend_from_slice(bytes).is_ok()
    }
}

impl Outlet for MemOutlet {
    ghost use Rattle.sch_io.specs.InMemory.{faults_met, next_count, room_left, told_bytes, told_left};

    ghost bytes = { told_bytes };

    ghost left = { told_left };

    ghost faults = { faults_met };

    fn write(&mut self, piece: &[u8]) -> Answer
        ensures within { IsWithin result (length piece.now) }
        ensures bytes { Tells (told_bytes self.old) (told_bytes self.new) (λ before after. after ≡ before ++ taken result piece.now) }
        ensures left { Tells (told_left self.old) (told_left self.new) (AnswersNext (length piece.now) result) }
        ensures faults { faults_met self.old ≤ faults_met self.new }
        ensures refused_only_where_faults_rose { IsRefusal result (length piece.now) → Rose (faults_met self.old) (faults_met self.new) }

        // A refusal is one fault, and no other answer is one.
        ensures one_fault { IsRefusal result (length piece.now) → faults_met self.new ≡ raised (faults_met self.old) }
        ensures no_fault { ¬ IsRefusal result (length piece.now) → faults_met self.new ≡ faults_met self.old }

        // It tells on as long as there is room.
        ensures room { room_left self.new + length (taken result piece.now) ≡ room_left self.old }
        ensures tells_on { IfSome (told_left self.old) (λ left. next_count left (length piece.now) ≤ room_left self.old → IsSome (told_left self.new) × IsSome (told_bytes self.new)) }
        ensures full { IfSome (told_left self.old) (λ left. room_left self.old < next_count left (length piece.now)
            → (result ≡ Answer.Failed) × (told_left self.new ≡ None) × (told_bytes self.new ≡ None)) }
    {
        match self.next_answer(piece.len()) {
            Answer::Took(count) => {
                if !self.keep(&piece[..count]) {
                    self.tells = false;
                    raise(&mut self.faults);
                    return Answer::Failed;
                }
                if count == 0 && !piece.is_empty() {
                    raise(&mut self.faults);
                }
                Answer::Took(count)
            }
            Answer::Failed => {
                raise(&mut self.faults);
                Answer::Failed
            }
        }
    }
}
