// The single steps of a seat on the log's words, and plain access to a cell that the seat has taken.
ghost use Rattle.std.specs.Prelude.{ℕ, List, ◌≡◌, ◌≢◌, ◌+◌, ◌-◌, ◌*◌, ◌%◌, ◌^◌, ◌<◌, ◌≤◌, suc, [], ◌∷◌, ◌++◌, length, slice_index, slice_index_or, Some, None, option_map, MatchOption, is_some, true, IsTrue};
ghost use Rattle.std.specs.Arc.{arc_value};
ghost use Rattle.atomic_table.specs.Table.{rest};
ghost use Rattle.nr_entry.specs.Shares.{shares_of};
ghost use Rattle.nr_log_end.specs.Standings.{applied_of, passed_of, IsAllFilled, StandsInLog, reserved_as, filled_for, fetched_with, passed_on};
ghost use Rattle.nr_log_end.specs.declared.standing.Load.{Load};
ghost use Rattle.nr_oplog.specs.Layout.{passed_word, stamp_word, slot_of, words_of, slots_of};
ghost use Rattle.nr_oplog.specs.Plays.{with_tail, with_done, with_passed, with_unfilled, token_view, with_told, with_look, with_later, AreOfOneLog, MayFollow};
ghost use Rattle.nr_oplog.specs.Calls.{LoadsCounts, IsLeastOf};
ghost use Rattle.nr_oplog.specs.Rule.{opening_view};
ghost use Rattle.nr_oplog.specs.Seats.{IsSameSeat, IsOfNode, HasShareFor, CountsOf, IsBehind};

use crate::log::{LogName, Oplog};
use crate::plays::{
    Adopt, Claim, Compare, DoneTurns, Fill, Keep, LookForNext, NextNode, PassNext, SeePassed,
    SeeTail, SeeTailAndDo, TakeToFill, Tell,
};
use crate::view::{LogSlotSeat, Share};
use nr_entry::Entry;
use std::alloc::Global;
use std::sync::Arc;

impl<B: LogName> Oplog<B> {
    // Where a node's stamp for a number lies.
    fn stamp_word(&self, node: usize, number: u64) -> usize
        requires { node < self.now.table.shared.key.nodes }
        ensures word { result ≡ stamp_word self.now.table.shared.key.nodes self.now.table.shared.key.places node number }
        ensures there { result < words_of self.now.table.shared.key.nodes self.now.table.shared.key.places }
    {
        let place = (number % self.places as u64) as usize;
        16 * self.nodes + 16 + (node * (self.places + 16) + place)
    }

    // Where a node's cell for a number lies.
    fn slot(&self, node: usize, number: u64) -> usize
        requires { node < self.now.table.shared.key.nodes }
        ensures { result ≡ slot_of self.now.table.shared.key.places node number }
    {
        let place = (number % self.places as u64) as usize;
        node * self.places + place
    }

    // Loads the tail.
    pub(crate) fn load_tail(&self, seat: &mut LogSlotSeat) -> u64
        requires { (seat.old.table_id ≡ B.log) × IsOfNode seat.old.me.0 self.now.table.shared.key.nodes self.now.table.shared.key.places }
        ensures seat { IsSameSeat seat.old seat.new }
        ensures view { seat.new.me ≡ (with_tail result seat.old.me.0, seat.old.me.1) }
        ensures greater { seat.old.me.0.standing.seen ≤ result }
        ensures in_log { StandsInLog seat.new.me.0.standing }
    {
        self.table.shared.load::<SeeTail>(seat, 0)
    }

    // Loads the tail, and notes what the seat's node did, which is no passing of an entry.
    pub(crate) fn load_tail_and_do<T: DoneTurns>(&self, seat: &mut LogSlotSeat) -> u64
        requires seat { (seat.old.table_id ≡ B.log) × IsOfNode seat.old.me.0 self.now.table.shared.key.nodes self.now.table.shared.key.places }
        requires none { applied_of T.turns ≡ [] }
        requires rising { MayFollow T.turns seat.old.me.0.standing }
        ensures seat { IsSameSeat seat.old seat.new }
        ensures view { seat.new.me ≡ (with_done T.turns result seat.old.me.0, seat.old.me.1) }
        ensures greater { seat.old.me.0.standing.seen ≤ result }
    {
        self.table.shared.load::<SeeTailAndDo<T>>(seat, 0)
    }

    // Loads a node's passed count.
    fn load_passed(&self, seat: &mut LogSlotSeat, node: usize) -> u64
        requires { (seat.old.table_id ≡ B.log) × (node < self.now.table.shared.key.nodes) }
        ensures seat { IsSameSeat seat.old seat.new }
        ensures view { seat.new.me ≡ (with_passed node result seat.old.me.0, seat.old.me.1) }
        ensures greater { slice_index seat.old.me.0.met node ≤ result }
        ensures own { seat.old.me.0.upto ≡ suc seat.old.me.0.standing.node → node ≡ seat.old.me.0.standing.node → result ≡ passed_of seat.old.me.0.standing }
    {
        self.table.shared.load::<SeePassed>(seat, 16 * node + 16)
    }

    // Loads the passed counts of all nodes, and gives the least of them.
    pub(crate) fn load_all_passed(&self, seat: &mut LogSlotSeat) -> u64
        requires { (seat.old.table_id ≡ B.log) × IsOfNode seat.old.me.0 self.now.table.shared.key.nodes self.now.table.shared.key.places × (length seat.old.me.0.met ≡ self.now.table.shared.key.nodes) }
        ensures seat { IsSameSeat seat.old seat.new × (seat.new.me.1 ≡ seat.old.me.1) }
        ensures loads { LoadsCounts seat.old.me.0 seat.new.me.0 }
        ensures least { IsLeastOf result seat.new.me.0.met }
    {
        let mut least = self.load_passed(seat, 0);
        for node in 1..self.nodes {
            let count = self.load_passed(seat, node);
            least = least.min(count);
        }
        least
    }

    // Loads the passed counts until a node is found that has to pass more before there is a place at this tail. Gives the least of them
    // where there is none.
    pub(crate) fn least_passed(&self, seat: &mut LogSlotSeat, tail: u64) -> Option<u64>
        requires { (seat.old.table_id ≡ B.log) × (length seat.old.me.0.met ≡ self.now.table.shared.key.nodes) }
        ensures seat { IsSameSeat seat.old seat.new }
        ensures view { CountsOf seat.old.me seat.new.me }
        ensures looks { (more : List Load) × (seat.new.me.0.looks ≡ seat.old.me.0.looks ++ more) }
        ensures found { MatchOption result (IsBehind self.now.table.shared.key.nodes self.now.table.shared.key.places tail seat.old.me.0 seat.new.me.0) (λ least. (tail < least + self.now.table.shared.key.places) × ((node : ℕ) → node < self.now.table.shared.key.nodes → least ≤ slice_index seat.new.me.0.met node)) }
    {
        let places = self.places as u64;
        let mut least = u64::MAX;
        for node in 0..self.nodes {
            let count = self.load_passed(seat, node);
            if tail.saturating_sub(count) >= places {
                return None;
            }
            least = least.min(count);
        }
        Some(least)
    }

    // Moves the tail on if it is as expected.
    pub(crate) fn claim(&self, seat: &mut LogSlotSeat, tail: u64, said: &Share) -> u64
        requires seat { (seat.old.table_id ≡ B.log) × IsOfNode seat.old.me.0 self.now.table.shared.key.nodes self.now.table.shared.key.places × (seat.old.me.0.filling ≡ 0) }
        requires room { (tail < 2 ^ 63) × ((node : ℕ) → node < self.now.table.shared.key.nodes → tail < slice_index seat.old.me.0.met node + self.now.table.shared.key.places) }
        requires entry { HasShareFor seat.old.me.0 said.now }
        requires filled { IsAllFilled seat.old.me.0.standing }
        ensures seat { IsSameSeat seat.old seat.new × (seat.new.me.1 ≡ seat.old.me.1) }
        ensures won { result ≡ tail → (entry : Entry) → option_map arc_value said.now ≡ Some entry → seat.new.me.0 ≡ record seat.old.me.0 { standing = reserved_as tail (shares_of entry self.now.table.shared.key.nodes) seat.old.me.0.standing } }
        ensures lost { result ≢ tail → (seat.new.me.0 ≡ record seat.old.me.0 { standing = record seat.old.me.0.standing { seen = result } }) × (seat.old.me.0.standing.seen ≤ result) }
    {
        self.table
            .shared
            .compare_exchange_with::<Claim>(seat, 0, tail, tail + 1, said)
    }

    // Puts a share into a node's cell for the number that was reserved last.
    pub(crate) fn put(&self, seat: &mut LogSlotSeat, node: usize, at: u64, share: Share)
        requires seat { (seat.old.table_id ≡ B.log) × IsOfNode seat.old.me.0 self.now.table.shared.key.nodes self.now.table.shared.key.places × (seat.old.me.0.filling ≡ 0) }
        requires number { (at ≡ seat.old.me.0.standing.at) × (at < 2 ^ 63) × (node < self.now.table.shared.key.nodes) }
        requires share { (entry : Entry) × (option_map arc_value share ≡ Some entry) × (slice_index_or seat.old.me.0.standing.unfilled node None ≡ Some entry) }
        ensures seat { IsSameSeat seat.old seat.new }
        ensures view { seat.new.me ≡ (record seat.old.me.0 { standing = filled_for node seat.old.me.0.standing }, seat.old.me.1) }
    {
        let words = &self.table.shared;
        let word = self.stamp_word(node, at);
        words.load::<TakeToFill>(seat, word);
        match words.exchange(seat, self.slot(node, at), share) {
            None => {}
            Some(_) => unreachable!(),
        }
        words.store::<Fill>(seat, word, at + 1);
    }

    // Takes the next entry's share out of the seat's own cell, if it is filled. The cell stays taken.
    pub(crate) fn lift(
        &self,
        seat: &mut LogSlotSeat,
        node: usize,
        passed: u64,
    ) -> Option<Arc<Entry, Global>>
        requires seat { (seat.old.table_id ≡ B.log) × IsOfNode seat.old.me.0 self.now.table.shared.key.nodes self.now.table.shared.key.places × (node ≡ seat.old.me.0.standing.node) }
        requires next { (passed ≡ passed_of seat.old.me.0.standing) × (passed ≤ 2 ^ 63) × (seat.old.me.0.standing.held ≡ None) }
        ensures seat { IsSameSeat seat.old seat.new }
        ensures view { MatchOption result (seat.new.me ≡ (with_unfilled seat.old.me.0, seat.old.me.1)) (λ share. (passed < 2 ^ 63) × (seat.new.me ≡ (record seat.old.me.0 { standing = fetched_with (arc_value share) seat.old.me.0.standing }, (slot_of self.now.table.shared.key.places node passed, None) ∷ seat.old.me.1))) }
        ensures in_log { StandsInLog seat.new.me.0.standing }
    {
        let words = &self.table.shared;
        let word = self.stamp_word(node, passed);
        if words.load::<LookForNext>(seat, word) != passed + 1 {
            return None;
        }
        words.exchange(seat, self.slot(node, passed), None)
    }

    // Counts the entry that is held as passed, and gives its cell back.
    pub(crate) fn pass_next(&self, seat: &mut LogSlotSeat, node: usize, passed: u64)
        requires seat { (seat.old.table_id ≡ B.log) × IsOfNode seat.old.me.0 self.now.table.shared.key.nodes self.now.table.shared.key.places × (node ≡ seat.old.me.0.standing.node) }
        requires next { (passed ≡ passed_of seat.old.me.0.standing) × (passed < 2 ^ 63) × (is_some seat.old.me.0.standing.held ≡ true) }
        requires cell { seat.old.me.1 ≡ (slot_of self.now.table.shared.key.places node passed, None) ∷ rest seat.old.me.1 }
        ensures seat { IsSameSeat seat.old seat.new }
        ensures view { seat.new.me ≡ (record seat.old.me.0 { standing = passed_on seat.old.me.0.standing }, rest seat.old.me.1) }
    {
        self.table
            .shared
            .store::<PassNext>(seat, 16 * node + 16, passed + 1);
    }

    // A seat of no node, which knows what this one knows now.
    pub(crate) fn keep(&self, seat: &mut LogSlotSeat) -> LogSlotSeat
        requires { seat.old.table_id ≡ B.log }
        ensures seat { IsSameSeat seat.old seat.new × (seat.new.me ≡ seat.old.me) }
        ensures kept { (result.table_id ≡ B.log) × (result.me ≡ (token_view seat.old.me.0, [])) }
    {
        self.table.shared.split_seat::<Keep>(seat)
    }

    // Tells a seat what another one knows, and loads the tail: what the two know is of one log.
    pub(crate) fn compare(&self, seat: &mut LogSlotSeat, other: LogSlotSeat) -> u64
        requires seat { seat.old.table_id ≡ B.log }
        requires other { (other.table_id ≡ B.log) × (other.me.1 ≡ []) }
        ensures seat { IsSameSeat seat.old seat.new }
        ensures view { seat.new.me ≡ (with_look result (with_told seat.old.me.0 other.me.0), seat.old.me.1) }
        ensures of_one_log { AreOfOneLog seat.old.me.0.standing other.me.0.standing }
    {
        self.table.shared.join_seat::<Tell>(seat, other);
        self.table.shared.load::<Compare>(seat, 0)
    }

    // Tells a token what another one knows, and loads the tail: it knows the later of the two then.
    pub(crate) fn adopt(&self, seat: &mut LogSlotSeat, other: LogSlotSeat) -> u64
        requires seat { (seat.old.table_id ≡ B.log) × (seat.old.me.0.upto ≡ 0) }
        requires other { (other.table_id ≡ B.log) × (other.me.1 ≡ []) }
        ensures seat { IsSameSeat seat.old seat.new }
        ensures view { seat.new.me ≡ (with_later result (with_told seat.old.me.0 other.me.0), seat.old.me.1) }
        ensures of_one_log { AreOfOneLog seat.old.me.0.standing other.me.0.standing }
    {
        self.table.shared.join_seat::<Tell>(seat, other);
        self.table.shared.load::<Adopt>(seat, 0)
    }

    // The seat of the first of some nodes, cut from a seat of all of them.
    pub(crate) fn cut(&self, seat: &mut LogSlotSeat, node: usize) -> LogSlotSeat
        requires seat { (seat.old.table_id ≡ B.log) × (seat.old.me.1 ≡ []) }
        requires rest { (node < self.now.nodes) × (seat.old.me.0 ≡ opening_view self.now.nodes self.now.places node self.now.nodes) }
        ensures rest { IsSameSeat seat.old seat.new × (seat.new.me ≡ (opening_view self.now.nodes self.now.places (node + 1) self.now.nodes, [])) }
        ensures cut { (result.table_id ≡ B.log) × (result.me ≡ (opening_view self.now.nodes self.now.places node (node + 1), [])) }
    {
        self.table.shared.split_seat::<NextNode>(seat)
    }
}
