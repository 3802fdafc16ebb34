// Laws of the hint lists, over everything: functions without work, whose clauses the crates above cite by a call.
ghost use Rattle.std.specs.Prelude.{◌≡◌, ◌≤◌, ◌++◌, ℕ, ℤ, neg_ℤ, List, [], ◌∷◌, map, length, Option, None, Some, IsTrue, IsFalse, is_some};
ghost use Rattle.lrat_rules.specs.State.{Live, clause_at};
ghost use Rattle.lrat_rules.specs.Chain.{FalseSet, literals_of, with_literal};
ghost use Rattle.lrat_rules.specs.Strict.{RefutesStrictly, is_strict};
ghost use Rattle.lrat_rules.specs.Soundness.{is_nonzero};
ghost use Rattle.hint_chain.specs.declared.atom.Atom.{Atom};
ghost use Rattle.hint_chain.specs.declared.atom.Atom.TheVariants.{Of};
ghost use Rattle.hint_chain.specs.declared.part.Part.{Part};
ghost use Rattle.hint_chain.specs.declared.unit.UnitPart.{UnitPart};
ghost use Rattle.hint_chain.specs.Atoms.{neg_atom, clause_from_atoms, is_trivial};
ghost use Rattle.hint_chain.specs.Greedy.{greedy, PartsClose, AreLiveParts};
ghost use Rattle.hint_chain.specs.Closing.{IsConsistent, are_apart, are_among, IsChildPart, Child, AreChildParts, IsLastPart};
ghost use Rattle.hint_chain.specs.Additions.{conjunction, implication, where_true, IsUpPart, IsDownPart, Justifies};
ghost use Rattle.hint_chain.specs.declared.step.StepParts.{StepParts};
ghost use Rattle.hint_chain.specs.Step.{IsConjunctionSide, IsImplicationSide, SideParts, Spells};
ghost use Rattle.hint_chain.specs.Units.{next_id, unit_list, FalsifiesLiteral, FalsifiesNext, path_literals, IsUnitPath};

/// The clause of a list of atoms has no literal but theirs, and there is one unless it is true by itself.
pub fn clause_law()
    ensures among { (atoms : List Atom) (clause : List ℤ) → clause_from_atoms atoms ≡ Some clause → IsTrue (are_among atoms clause) }
    ensures short { (atoms : List Atom) (clause : List ℤ) → clause_from_atoms atoms ≡ Some clause → length clause ≤ length atoms }
    ensures given { (atoms : List Atom) → IsFalse (is_trivial atoms) → IsTrue (is_some (clause_from_atoms atoms)) }
{}

/// The greedy choice among live parts is a strict refutation.
pub fn greedy_law()
    ensures strict { (live : Live) (n : FalseSet) (parts : List (Option Part)) (hints : List ℕ) → greedy n parts ≡ Some hints
        → AreLiveParts live parts
        → IsTrue (is_strict live n hints) }
    ensures refutes { (live : Live) (clause : List ℤ) (parts : List (Option Part)) (hints : List ℕ) → greedy (literals_of clause) parts
        ≡ Some hints
        → AreLiveParts live parts → RefutesStrictly live clause hints }
{}

/// Where each part leaves one child, and the last one leaves the children's negations, the greedy choice closes; also
/// behind a first part that leaves one literal more.
pub fn closing_law()
    ensures consistent { (clause : List ℤ) → IsTrue (are_apart clause) → IsConsistent (literals_of clause) }
    ensures apart { (x : ℤ) (clause : List ℤ) → IsTrue (are_apart (neg_ℤ x ∷ clause)) → IsFalse (literals_of clause x)
        × IsFalse (literals_of clause (neg_ℤ x)) }
    ensures closes { (n : FalseSet) (children : List Child) (last : Option Part) → IsConsistent n → AreChildParts n children
        → IsLastPart n (map (λ child. neg_atom child.atom) children) last → PartsClose n (map (λ child. child.part) children ++ last ∷ []) }
    ensures behind { (n : FalseSet) (literal : ℤ) (first : Part) (children : List Child) (last : Option Part) → IsConsistent n
        → IsChildPart n (Of literal) (Some first) → AreChildParts (with_literal (neg_ℤ literal) n) children
        → IsLastPart (with_literal (neg_ℤ literal) n) (map (λ child. neg_atom child.atom) children) last
        → PartsClose n (Some first ∷ map (λ child. child.part) children ++ last ∷ []) }
{}

/// What is kept of the parts of a conjunction's sides is of these, and they close: for the high addition, and for the low one behind it.
/// So do the parts as lists, the low ones behind the high clause as a part.
pub fn conjunction_law()
    ensures high { (x : ℤ) (u v w u1 v1 h : Atom) (clause : List ℤ) (own : StepParts) (sides : SideParts)
        → clause_from_atoms (where_true x (conjunction u v w)) ≡ Some clause → IsConsistent (literals_of clause)
        → IsConjunctionSide (neg_ℤ x) u v w u1 v1 h own sides → Spells (literals_of clause) own sides }
    ensures low { (x : ℤ) (u v w u0 v0 l : Atom) (clause : List ℤ) (own : StepParts) (sides : SideParts) → IsTrue (is_nonzero x)
        → clause_from_atoms (conjunction u v w) ≡ Some clause → IsConsistent (literals_of clause) → IsFalse (literals_of clause (neg_ℤ x))
        → IsConjunctionSide x u v w u0 v0 l own sides → Spells (with_literal x (literals_of clause)) own sides }
    ensures high_list { (x : ℤ) (u v w u1 v1 h : Atom) (clause : List ℤ) (up down_u down_v last : Option Part)
        → clause_from_atoms (where_true x (conjunction u v w)) ≡ Some clause → IsConsistent (literals_of clause)
        → IsUpPart (neg_ℤ x) w h up → IsDownPart (neg_ℤ x) u u1 down_u → IsDownPart (neg_ℤ x) v v1 down_v
        → Justifies (conjunction u1 v1 h) last
        → PartsClose (literals_of clause) (up ∷ down_u ∷ down_v ∷ last ∷ []) }
    ensures low_list { (x : ℤ) (u v w u0 v0 l : Atom) (clause : List ℤ) (high : Part) (up down_u down_v last : Option Part)
        → IsTrue (is_nonzero x) → clause_from_atoms (where_true x (conjunction u v w)) ≡ Some high.clause
        → clause_from_atoms (conjunction u v w) ≡ Some clause → IsConsistent (literals_of clause)
        → IsUpPart x w l up → IsDownPart x u u0 down_u → IsDownPart x v v0 down_v → Justifies (conjunction u0 v0 l) last
        → PartsClose (literals_of clause) (Some high ∷ up ∷ down_u ∷ down_v ∷ last ∷ []) }
{}

/// The same of an implication.
pub fn implication_law()
    ensures high { (x : ℤ) (u v u1 v1 : Atom) (clause : List ℤ) (own : StepParts) (sides : SideParts)
        → clause_from_atoms (where_true x (implication u v)) ≡ Some clause → IsConsistent (literals_of clause)
        → IsImplicationSide (neg_ℤ x) u v u1 v1 own sides → Spells (literals_of clause) own sides }
    ensures low { (x : ℤ) (u v u0 v0 : Atom) (clause : List ℤ) (own : StepParts) (sides : SideParts) → IsTrue (is_nonzero x)
        → clause_from_atoms (implication u v) ≡ Some clause → IsConsistent (literals_of clause) → IsFalse (literals_of clause (neg_ℤ x))
        → IsImplicationSide x u v u0 v0 own sides → Spells (with_literal x (literals_of clause)) own sides }
    ensures high_list { (x : ℤ) (u v u1 v1 : Atom) (clause : List ℤ) (down_u up_v last : Option Part)
        → clause_from_atoms (where_true x (implication u v)) ≡ Some clause → IsConsistent (literals_of clause)
        → IsDownPart (neg_ℤ x) u u1 down_u → IsUpPart (neg_ℤ x) v v1 up_v → Justifies (implication u1 v1) last
        → PartsClose (literals_of clause) (down_u ∷ up_v ∷ last ∷ []) }
    ensures low_list { (x : ℤ) (u v u0 v0 : Atom) (clause : List ℤ) (high : Part) (down_u up_v last : Option Part)
        → IsTrue (is_nonzero x) → clause_from_atoms (where_true x (implication u v)) ≡ Some high.clause
        → clause_from_atoms (implication u v) ≡ Some clause → IsConsistent (literals_of clause)
        → IsDownPart x u u0 down_u → IsUpPart x v v0 up_v → Justifies (implication u0 v0) last
        → PartsClose (literals_of clause) (Some high ∷ down_u ∷ up_v ∷ last ∷ []) }
{}

/// The unit of a clause's top node.
pub fn unit_law()
    ensures { (live : Live) (path : List UnitPart) (node : ℤ) (nodes clause : List ℤ) (input : ℕ)
        → IsUnitPath live path (node ∷ nodes) clause
        → clause_at live input ≡ Some clause → RefutesStrictly live (node ∷ []) (unit_list path input) }
{}

/// A clause's diagram from the bottom up: the last node, one node more on top, more live clauses, and the clause in
/// another order or with repetitions.
pub fn unit_path_law()
    ensures last { (live : Live) (part : UnitPart) (node : ℤ) → FalsifiesLiteral live part node → next_id part ≡ None
        → IsTrue (are_apart (node ∷ part.lit ∷ [])) → IsUnitPath live (part ∷ []) (node ∷ []) (part.lit ∷ []) }
    ensures on_top { (live : Live) (part : UnitPart) (path : List UnitPart) (node next : ℤ) (nodes literals : List ℤ)
        → IsUnitPath live path (next ∷ nodes) literals → FalsifiesLiteral live part node → FalsifiesNext live part node next
        → IsTrue (are_apart (node ∷ part.lit ∷ path_literals path (next ∷ nodes)))
        → IsUnitPath live (part ∷ path) (node ∷ next ∷ nodes) (part.lit ∷ literals) }
    ensures kept { (live more : Live) (path : List UnitPart) (nodes clause : List ℤ)
        → ((id : ℕ) (own : List ℤ) → clause_at live id ≡ Some own → clause_at more id ≡ Some own)
        → IsUnitPath live path nodes clause → IsUnitPath more path nodes clause }
    ensures same_set { (live : Live) (path : List UnitPart) (nodes clause other : List ℤ)
        → ((x : ℤ) → literals_of other x ≡ literals_of clause x) → IsUnitPath live path nodes clause → IsUnitPath live path nodes other }
{}

/// The unit of a conjunction, from the units of u and v and its clause; and the unit of what u implies. Where the
/// result is False this is the empty clause.
pub fn following_unit_law()
    ensures conjunction { (live : Live) (u v : ℤ) (w : Atom) (clause justified : List ℤ) (unit_u unit_v id : ℕ)
        → clause_from_atoms (w ∷ []) ≡ Some clause → IsTrue (are_apart (u ∷ v ∷ clause))
        → clause_at live unit_u ≡ Some (u ∷ []) → clause_at live unit_v ≡ Some (v ∷ [])
        → clause_at live id ≡ Some justified → IsTrue (are_among (conjunction (Of u) (Of v) w) justified)
        → RefutesStrictly live clause (unit_u ∷ unit_v ∷ id ∷ []) }
    ensures implication { (live : Live) (u : ℤ) (w : Atom) (clause justified : List ℤ) (unit_u id : ℕ)
        → clause_from_atoms (w ∷ []) ≡ Some clause → IsTrue (are_apart (u ∷ clause))
        → clause_at live unit_u ≡ Some (u ∷ []) → clause_at live id ≡ Some justified → IsTrue (are_among (implication (Of u) w) justified)
        → RefutesStrictly live clause (unit_u ∷ id ∷ []) }
{}
