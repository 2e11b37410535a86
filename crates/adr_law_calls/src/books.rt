//! How books grow, and that what was sound of one stays so.

ghost use Rattle.std.specs.Prelude.{◌≡◌, ◌≢◌, ◌≤◌, Ok};
ghost use Rattle.adr_model.specs.Member.{Member, Each};
ghost use Rattle.adr_model.specs.Update.{Identifier, Update};
ghost use Rattle.adr_values.specs.declared.mark.Mark.{Mark};
ghost use Rattle.adr_model.specs.Reflects.{Numbers, Covers, Knowledge, Reflects};
ghost use Rattle.adr_model.specs.Store.{Store, State, empty_state};
ghost use Rattle.adr_model.specs.Change.{after};
ghost use Rattle.adr_model.specs.LocalLog.{no_log, Follows};
ghost use Rattle.adr_model.specs.Collect.{adopt};
ghost use Rattle.adr_model.specs.Serve.{Request, Reply};
ghost use Rattle.adr_model.specs.Replica.{Pending, issued_by, Replica, Book, log_of, with_change, begun, recorded};
ghost use Rattle.adr_model.specs.Sound.{last_of, IsBounded, IsSoundBook, IsSoundMark, IsSoundStore, IsSoundState, IsSoundRequest, IsSoundReply, IsSoundReplica};
ghost use Rattle.adr_model.specs.LocalLog.{first_log};
ghost use Rattle.adr_law_calls.specs.Later.{IsLater, AreIssuedBy, MayIssue};
ghost use Rattle.adr_law_calls.specs.Moved.{MayTake, HasTaken};
ghost use Rattle.adr_law_calls.specs.Settling.{Leaves};

/// Being later is an order.
#[tactic(none)]
pub fn later_is_an_order()
    ensures itself { (s : Book) → IsLater s s }
    ensures onward { (s t v : Book) → IsLater s t → IsLater t v → IsLater s v }
{}

/// An incarnation that was never used begins with the rows of a store: the book is later, and
/// stays sound where these rows were issued.
#[tactic(none)]
pub fn an_incarnation_begins()
    ensures later { (s : Book) (d : State) → log_of s d.inv ≡ no_log
        → Each (λ x. (1 ≤ x.local) × (x.local ≤ d.store.usn)) d.store.rows → IsLater s (begun s d) }
    ensures sound { (s : Book) (d : State) → log_of s d.inv ≡ no_log
        → Each (λ x. (1 ≤ x.local) × (x.local ≤ d.store.usn)) d.store.rows
        → Each (λ x. Member x.update s.issued) d.store.rows → IsSoundBook s → IsSoundBook (begun s d) }
    ensures own { (s : Book) (d : State) → log_of (begun s d) d.inv ≡ first_log d.store.usn d.store.rows }
    ensures others { (s : Book) (d : State) (i : Identifier) → i ≢ d.inv → log_of (begun s d) i ≡ log_of s i }
{}

/// A controller that is made of a sound image, under an identifier that was never used, is sound, and
/// so is the book in which its incarnation begins.
#[tactic(none)]
pub fn adopted_images_are_sound()
    ensures { (book : Book) (image : Store) (dsa inv : Identifier) (s : State) → IsSoundBook book
        → IsSoundStore book image → log_of book inv ≡ no_log → adopt image dsa inv ≡ Ok s
        → IsLater book (begun book s) × (IsSoundBook (begun book s) × IsSoundState (begun book s) s) }
{}

/// A new controller under an identifier that was never used is sound, and so is the book in which
/// its incarnation begins.
#[tactic(none)]
pub fn new_controllers_are_sound()
    ensures { (book : Book) (dsa inv : Identifier) → IsSoundBook book → log_of book inv ≡ no_log
        → IsLater book (begun book (empty_state dsa inv)) × (IsSoundBook (begun book (empty_state dsa inv)) × IsSoundState (begun book (empty_state dsa inv)) (empty_state dsa inv)) }
{}

/// A change becomes safe with what it issues: the book is later, and stays sound where the change
/// follows in its log and issues and writes what it may.
#[tactic(none)]
pub fn a_change_is_recorded()
    ensures later { (s : Book) (inv : Identifier) (p : Pending) → Follows (last_of s inv) p.change
        → AreIssuedBy s inv p.change (issued_by p.call p.change) → IsLater s (recorded s inv p) }
    ensures sound { (s : Book) (inv : Identifier) (p : Pending) → Follows (last_of s inv) p.change
        → AreIssuedBy s inv p.change (issued_by p.call p.change) → MayIssue s p.change (issued_by p.call p.change)
        → IsSoundBook s → IsSoundBook (recorded s inv p) }
    ensures own { (s : Book) (inv : Identifier) (p : Pending)
        → log_of (recorded s inv p) inv ≡ with_change (log_of s inv) p.change }
    ensures others { (s : Book) (inv : Identifier) (p : Pending) (i : Identifier) → i ≢ inv
        → log_of (recorded s inv p) i ≡ log_of s i }
{}

/// A sound state whose change follows in its log, issues its incarnation's own and leaves what a
/// sound state needs is sound behind the change, in the book in which that is safe.
#[tactic(none)]
pub fn a_change_leaves_a_sound_state()
    ensures { (book : Book) (s : State) (p : Pending) → IsSoundBook book → IsSoundState book s
        → Follows (last_of book s.inv) p.change → AreIssuedBy book s.inv p.change (issued_by p.call p.change)
        → Leaves book s p
        → IsSoundState (recorded book s.inv p) (after s p.change) }
{}

/// What was sound of a book is sound of a later one. Of a controller it is so while its own log
/// is the same.
#[tactic(none)]
pub fn what_is_sound_stays_sound()
    ensures reflected { (s t : Book) → IsLater s t → (k : Knowledge) (u : Update) → Reflects s.issued k u
        → Reflects t.issued k u }
    ensures bounded { (s t : Book) → IsLater s t → (V : Numbers) → IsBounded s V → IsBounded t V }
    ensures covered { (s t : Book) → IsLater s t → (V : Numbers) → IsBounded s V
        → Each (λ u. Covers V u → Member u s.issued) t.issued }
    ensures mark { (s t : Book) → IsLater s t → (k : Knowledge) (inv : Identifier) (m : Mark)
        → IsSoundMark s k inv m → IsSoundMark t k inv m }
    ensures store { (s t : Book) → IsLater s t → (d : Store) → IsSoundStore s d → IsSoundStore t d }
    ensures state { (s t : Book) → IsLater s t → (d : State) → log_of t d.inv ≡ log_of s d.inv → IsSoundState s d
        → IsSoundState t d }
    ensures request { (s t : Book) → IsLater s t → (q : Request) → IsSoundRequest s q → IsSoundRequest t q }
    ensures reply { (s t : Book) → IsLater s t → (r : Reply) → IsSoundReply s r → IsSoundReply t r }
    ensures replica { (s t : Book) → IsLater s t → (r : Replica) → log_of t r.safe.inv ≡ log_of s r.safe.inv
        → IsSoundReplica s r → IsSoundReplica t r }
{}

/// The end of a reply is a mark that tells the truth of whoever took it: what was sent is
/// reflected, and what the reply left out was covered by the request or lay below its beginning.
#[tactic(none)]
pub fn a_reply_moves_its_mark()
    ensures { (s : Book) (r : Reply) (k k' : Knowledge) → IsSoundBook s → IsSoundReply s r → MayTake s k r
        → HasTaken s k k' r → IsSoundMark s k' r.inv r.to }
{}
