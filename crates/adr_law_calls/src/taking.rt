//! Taking a reply.

ghost use Rattle.std.specs.Prelude.{◌≡◌, ◌≢◌, ◌⊎◌, ℕ, [], Ok, Err};
ghost use Rattle.adr_values.specs.declared.stamp.Oid.{Oid};
ghost use Rattle.adr_values.specs.Vector.{at};
ghost use Rattle.adr_call.specs.declared.refusal.ItemFault.{ItemFault};
ghost use Rattle.adr_call.specs.declared.refusal.TakeRefusal.TheVariants.{RolledBack, BadItem, Incomplete};
ghost use Rattle.adr_model.specs.Member.{Member, Each};
ghost use Rattle.adr_model.specs.Update.{Identifier, Update};
ghost use Rattle.adr_model.specs.Reflects.{Covers, knowledge_of, Reflects};
ghost use Rattle.adr_model.specs.Store.{State, updates_of};
ghost use Rattle.adr_model.specs.Change.{Change, after};
ghost use Rattle.adr_model.specs.LocalLog.{Follows};
ghost use Rattle.adr_model.specs.Serve.{Reply};
ghost use Rattle.adr_model.specs.Take.{take};
ghost use Rattle.adr_model.specs.Replica.{Book, ToTake};
ghost use Rattle.adr_model.specs.Sound.{last_of, IsSoundBook, IsSoundState, IsSoundReply, IsSent};
ghost use Rattle.adr_law_calls.specs.Later.{MayIssue};
ghost use Rattle.adr_law_calls.specs.Settling.{Leaves};

/// A sound state that takes a sound reply: the change follows in its log and writes only what was
/// issued, and leaves what a sound state needs.
#[tactic(none)]
pub fn taken_replies_leave_sound_states()
    ensures { (book : Book) (s : State) (r : Reply) (c : Change) → IsSoundBook book → IsSoundState book s
        → IsSoundReply book r → take s r ≡ Ok c
        → Follows (last_of book s.inv) c × (MayIssue book c [] × Leaves book s (record { call = ToTake r; change = c })) }
{}

/// A sound state finds no item of a sound reply broken or incomplete, and that it was put back it
/// doesn't find either.
#[tactic(none)]
pub fn sound_replies_are_whole()
    ensures broken { (book : Book) (s : State) (r : Reply) (place : ℕ) (cause : ItemFault) → IsSoundBook book
        → IsSoundState book s → IsSoundReply book r → take s r ≢ Err (BadItem place cause) }
    ensures incomplete { (book : Book) (s : State) (r : Reply) (o : Oid) → IsSoundBook book → IsSoundState book s
        → IsSoundReply book r → take s r ≢ Err (Incomplete o) }
    ensures rollback { (book : Book) (s : State) (r : Reply) (inv : Identifier) (mine shown : ℕ) → IsSoundBook book
        → IsSoundState book s → IsSoundReply book r → take s r ≢ Err (RolledBack inv mine shown) }
{}

/// A row that comes with a reply was sent (*from*), and where nothing that was sent is covered, it wasn't
/// taken before (*lacked*). Where all that was sent was taken, nothing is written (*idle*).
#[tactic(none)]
pub fn replies_bring_what_was_lacking()
    ensures from { (book : Book) (s : State) (r : Reply) (c : Change) → IsSoundBook book → IsSoundState book s
        → IsSoundReply book r → take s r ≡ Ok c
        → Each (λ u. Member u (updates_of s.store.rows) ⊎ IsSent r u) (updates_of (after s c).store.rows) }
    ensures lacked { (book : Book) (s : State) (r : Reply) (c : Change) → IsSoundBook book → IsSoundState book s
        → IsSoundReply book r → take s r ≡ Ok c
        → ((u : Update) → IsSent r u → Covers (at s.store.vector) u → ⊥)
        → Each (λ u. Member u (updates_of s.store.rows) ⊎ (IsSent r u × (Reflects book.issued (knowledge_of s.store) u → ⊥))) (updates_of (after s c).store.rows) }
    ensures idle { (book : Book) (s : State) (r : Reply) (c : Change) → IsSoundBook book → IsSoundState book s
        → IsSoundReply book r → take s r ≡ Ok c
        → ((u : Update) → IsSent r u → Covers (at s.store.vector) u → ⊥) → ((u : Update) → IsSent r u → Reflects book.issued (knowledge_of s.store) u) → c.usn ≡ s.store.usn }
{}
