//! The definitions of a search, computed on directories small enough to be followed by hand. Each function's contract is
//! what is found, worked out by the rules; there is no code.

ghost use Rattle.std.specs.Prelude.{◌≡◌, [], ◌∷◌, Some, None, Ok, Err, codes, false, map, true};
ghost use Rattle.adr_filter.specs.declared.filter.Scope.TheVariants.{Base, One, Sub};
ghost use Rattle.adr_filter.specs.Places.{bad_place, filter_of};
ghost use Rattle.adr_search.specs.declared.refusal.SearchRefusal.TheVariants.{BadFilter, NoBase};
ghost use Rattle.adr_search.specs.Line.{search_line, session_line};
ghost use Rattle.adr_search.specs.Scopes.{has_base};
ghost use Rattle.adr_test_filters.specs.Searches.{answers, asking, circle, finds, found_there, identifier, lost_person, office, one_person};

/// One person under the root, and one that lost its parent.
#[tactic(none)]
pub fn small_searches()
    ensures named { finds one_person 1 Sub (codes "(&(objectClass=user)(name=a*n))") ≡ Some (identifier 16 ∷ []) }
    ensures root { finds one_person 1 Base (codes "(name=*)") ≡ Some [] }
    ensures denied { finds one_person 1 One (codes "(!(mail=x))") ≡ Some (identifier 16 ∷ []) }
    ensures unknown { finds one_person 1 One (codes "(!(colour=x))") ≡ Some [] }
    ensures lost { finds lost_person 1 Sub (codes "(name=*)") ≡ Some (identifier 17 ∷ []) }
    ensures in_lost { finds lost_person 2 One (codes "(name=*)") ≡ Some (identifier 17 ∷ []) }
    ensures not_right_there { finds lost_person 1 One (codes "(name=*)") ≡ Some [] }
{}

/// Texts that are no filter, and a base that isn't there.
#[tactic(none)]
pub fn refused_searches()
    ensures cut { (filter_of (codes "(name=a") ≡ None) × (bad_place (codes "(name=a") ≡ 7) }
    ensures approximate { (filter_of (codes "(mail~=x)") ≡ None) × (bad_place (codes "(mail~=x)") ≡ 5) }
    ensures no_base { has_base one_person (identifier 9) ≡ false }
    ensures bases { map (has_base one_person) (identifier 1 ∷ identifier 2 ∷ identifier 16 ∷ []) ≡ true ∷ true ∷ true ∷ [] }
{}

/// The three scopes, in an office of four objects.
#[tactic(none)]
pub fn found_by_scope()
    ensures below { finds office 18 Sub (codes "(name=*)") ≡ Some (identifier 18 ∷ identifier 19 ∷ []) }
    ensures right_below { finds office 16 One (codes "(name=*)") ≡ Some (identifier 17 ∷ identifier 18 ∷ []) }
    ensures itself { finds office 17 Base (codes "(member=*)") ≡ Some (identifier 17 ∷ []) }
    ensures none_lost { finds office 2 Sub (codes "(name=*)") ≡ Some [] }
{}

/// Tests of each form of value. What can't be read, or is not compared so, is undefined, and so is its opposite.
#[tactic(none)]
pub fn found_by_tests()
    ensures texts { found_there (codes "(description=NEW)" ∷ codes "(DESCRIPTION>=p)" ∷ codes "(description=*l*)" ∷ codes "(name=s*a*s*)" ∷ [])
        ≡ Some (identifier 16 ∷ []) ∷ Some [] ∷ Some (identifier 16 ∷ []) ∷ Some (identifier 16 ∷ identifier 18 ∷ []) ∷ [] }
    ensures numbers { found_there (codes "(employeeNumber>=7)" ∷ codes "(groupType<=-2147483646)" ∷ codes "(employeeNumber=07)" ∷ codes "(!(employeeNumber=7*))" ∷ [])
        ≡ Some (identifier 18 ∷ []) ∷ Some (identifier 17 ∷ []) ∷ Some [] ∷ Some [] ∷ [] }
    ensures flags { found_there (codes "(disabled=TRUE)" ∷ codes "(disabled=FALSE)" ∷ codes "(!(disabled>=TRUE))" ∷ [])
        ≡ Some (identifier 18 ∷ []) ∷ Some [] ∷ Some [] ∷ [] }
    ensures octets { found_there (codes "(thumbprint=*\\2aA)" ∷ codes "(thumbprint=*\\2aa)" ∷ codes "(thumbprint<=\\02)" ∷ [])
        ≡ Some (identifier 18 ∷ []) ∷ Some [] ∷ Some (identifier 18 ∷ []) ∷ [] }
    ensures guids { found_there (codes "(memberOf=#11)" ∷ codes "(seeAlso=00000000-0000-0000-0000-000000000010)" ∷ codes "(!(member=x))" ∷ [])
        ≡ Some (identifier 18 ∷ []) ∷ Some (identifier 18 ∷ []) ∷ Some [] ∷ [] }
    ensures unknown { found_there (codes "(|(colour=x)(class=container))" ∷ codes "(&(colour=x)(name=*))" ∷ codes "(!(deleted=*))" ∷ [])
        ≡ Some (identifier 19 ∷ []) ∷ Some [] ∷ Some [] ∷ [] }
{}

/// What a search answers whose filter is a text: a text that is none is refused before a base that isn't there.
#[tactic(none)]
pub fn answered_searches()
    ensures named { answers one_person 1 Sub (codes "(&(objectClass=user)(name=a*n))") ≡ Ok (identifier 16 ∷ []) }
    ensures root { answers one_person 1 Base (codes "(name=*)") ≡ Ok [] }
    ensures denied { answers one_person 1 One (codes "(!(mail=x))") ≡ Ok (identifier 16 ∷ []) }
    ensures unknown { answers one_person 1 One (codes "(!(colour=x))") ≡ Ok [] }
    ensures cut { answers one_person 1 Sub (codes "(name=a") ≡ Err (BadFilter 7) }
    ensures approximate { answers one_person 1 Sub (codes "(mail~=x)") ≡ Err (BadFilter 5) }
    ensures no_base { answers one_person 9 Sub (codes "(name=*)") ≡ Err (NoBase (identifier 9)) }
    ensures cut_before_base { answers one_person 9 Sub (codes "(name=a") ≡ Err (BadFilter 7) }
    ensures around { answers circle 1 Sub (codes "(name=*)") ≡ Ok [] }
    ensures within { answers circle 16 Sub (codes "(name=*)") ≡ Ok (identifier 16 ∷ identifier 17 ∷ []) }
{}

/// Lines that ask for a search, behind their verb.
#[tactic(none)]
pub fn lines_of_searches()
    ensures named { search_line (codes " A #1 sub \"(name=*)\"") ≡ Some (codes "A", asking 1 Sub (codes "(name=*)")) }
    ensures session { session_line (codes " #10 one \"(mail=x y)\" ") ≡ Some (asking 16 One (codes "(mail=x y)")) }
    ensures no_filter { session_line (codes " #2 base \"(\"") ≡ Some (asking 2 Base (codes "(")) }
    ensures scope { session_line (codes " #1 all \"(name=*)\"") ≡ None }
    ensures more { session_line (codes " #1 sub \"(name=*)\" x") ≡ None }
    ensures bare { session_line (codes " #1 sub (name=*)") ≡ None }
{}
