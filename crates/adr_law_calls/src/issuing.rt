//! What a client's write issues.

ghost use Rattle.std.specs.Prelude.{◌≡◌, ◌<◌, ◌≤◌, ◌+◌, ℕ, length, Ok};
ghost use Rattle.adr_model.specs.Member.{Each};
ghost use Rattle.adr_model.specs.Update.{inv_of, usn_of};
ghost use Rattle.adr_model.specs.Store.{State};
ghost use Rattle.adr_model.specs.Change.{Written, Change};
ghost use Rattle.adr_model.specs.LocalLog.{Follows};
ghost use Rattle.adr_model.specs.Write.{Write, items_written, write};
ghost use Rattle.adr_model.specs.Replica.{Book, ToWrite, issued_by};
ghost use Rattle.adr_model.specs.Sound.{last_of};
ghost use Rattle.adr_law_calls.specs.Later.{AreIssuedBy};

/// All rows of a write's item are stamped with the controller's identifier and the item's USN, which
/// lies between the last one and that of the change. So the change follows in the log, and what it
/// issues is the incarnation's own, under USNs that weren't used.
#[tactic(none)]
pub fn writes_issue_their_own()
    ensures stamps { (s : State) (w : Write) (now : ℕ)
        → Each (λ (x : Written). Each (λ u. (inv_of u ≡ s.inv)
        × (usn_of u ≡ x.local)) x.item.rows) (items_written s w now) }
    ensures usns { (s : State) (w : Write) (now : ℕ)
        → Each (λ (x : Written). (s.store.usn < x.local)
        × (x.local ≤ s.store.usn + length (items_written s w now))) (items_written s w now) }
    ensures change { (book : Book) (s : State) (w : Write) (now : ℕ) → s.store.usn ≡ last_of book s.inv → (c : Change)
        → write s w now ≡ Ok c
        → Follows (last_of book s.inv) c × AreIssuedBy book s.inv c (issued_by (ToWrite w now) c) }
{}
