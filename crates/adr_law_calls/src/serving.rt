//! Asking and serving: what is asked is sound, what a reply leaves out, wherever it is cut, and that it is sound.

ghost use Rattle.std.specs.Prelude.{◌≡◌, ◌≢◌, ◌≤◌, ℕ, true, Ok, Err};
ghost use Rattle.adr_call.specs.declared.refusal.ServeRefusal.TheVariants.{RolledBack};
ghost use Rattle.adr_values.specs.Vector.{at_most};
ghost use Rattle.adr_model.specs.Update.{Identifier};
ghost use Rattle.adr_model.specs.Store.{State};
ghost use Rattle.adr_model.specs.LocalLog.{rows_at};
ghost use Rattle.adr_model.specs.Serve.{Request, Reply, ask, shown_by, reply_to, serve};
ghost use Rattle.adr_model.specs.Formed.{AreAlone};
ghost use Rattle.adr_model.specs.Replica.{Book, log_of};
ghost use Rattle.adr_model.specs.Sound.{IsSoundBook, IsSoundStore, IsSoundState, IsSoundRequest, IsSoundReply, CoversItsGround};

/// A row that the end of a reply leaves out is covered by the request, or is sent, or was left out
/// by the mark at which the reply begins. So it is where the state's rows are those of its log, and
/// no two units share their last local USN.
#[tactic(none)]
pub fn replies_cover_their_ground()
    ensures { (book : Book) (s : State) (q : Request) (now : ℕ) → s.store.rows ≡ rows_at (log_of book s.inv) s.store.usn
        → AreAlone s.store.rows → CoversItsGround (reply_to s q now) (log_of book s.inv) }
{}

/// What a sound store asks is a sound request, whoever the partner is.
#[tactic(none)]
pub fn asked_requests_are_sound()
    ensures { (book : Book) (s : State) (partner : Identifier) (max version : ℕ) → IsSoundStore book s.store
        → IsSoundRequest book (ask s partner max version) }
{}

/// What a sound state answers to a sound request is a sound reply.
#[tactic(none)]
pub fn served_replies_are_sound()
    ensures served { (book : Book) (s : State) (q : Request) (now : ℕ) (r : Reply) → IsSoundBook book → IsSoundState book s
        → IsSoundRequest book q → serve s q now ≡ Ok r → IsSoundReply book r }
    ensures covered { (book : Book) (s : State) (q : Request) (now : ℕ) → IsSoundBook book → IsSoundState book s
        → IsSoundRequest book q → at_most s.store.purged q.vector ≡ true → IsSoundReply book (reply_to s q now) }
{}

/// A sound request shows no more of an incarnation than its controller has done, and so none is
/// refused for a rollback.
#[tactic(none)]
pub fn sound_requests_show_no_rollback()
    ensures shown { (book : Book) (s : State) (q : Request) → IsSoundState book s → IsSoundRequest book q
        → shown_by s q ≤ s.store.usn }
    ensures refused { (book : Book) (s : State) (q : Request) (now : ℕ) (inv : Identifier) (mine shown : ℕ)
        → IsSoundState book s → IsSoundRequest book q → serve s q now ≢ Err (RolledBack inv mine shown) }
{}
