// Steps by their own names and by new ones, worked out by hand.
ghost use Rattle.std.specs.Prelude.{◌≡◌, [], ◌∷◌, pos, negsuc};
ghost use Rattle.drat_text.specs.declared.step.DratStep.TheVariants.{Add as adds, Delete as deletes};
ghost use Rattle.fresh_names.specs.Fresh.{fresh};
ghost use Rattle.fresh_names.specs.Uses.{come_into_use, come_with};

/// Over one clause and one variable, a variable comes into use twice: by new names, two do. Within a clause it comes once.
pub fn fresh_example()
    ensures own { come_into_use 1 ((pos 1 ∷ []) ∷ [])
        (adds (pos 9 ∷ pos 1 ∷ []) ∷ deletes (pos 9 ∷ pos 1 ∷ []) ∷ adds (negsuc 8 ∷ pos 1 ∷ []) ∷ []) ≡ 9 ∷ 9 ∷ [] }
    ensures named { fresh 1 (adds (pos 9 ∷ pos 1 ∷ []) ∷ deletes (pos 9 ∷ pos 1 ∷ []) ∷ adds (negsuc 8 ∷ pos 1 ∷ []) ∷ [])
        ≡ adds (pos 2 ∷ pos 1 ∷ []) ∷ deletes (pos 2 ∷ pos 1 ∷ []) ∷ adds (negsuc 2 ∷ pos 1 ∷ []) ∷ [] }
    ensures once { come_into_use 1 ((pos 1 ∷ []) ∷ [])
        (adds (pos 2 ∷ pos 1 ∷ []) ∷ deletes (pos 2 ∷ pos 1 ∷ []) ∷ adds (negsuc 2 ∷ pos 1 ∷ []) ∷ []) ≡ 2 ∷ 3 ∷ [] }
    ensures repeated { come_with 1 ((pos 1 ∷ pos 7 ∷ []) ∷ []) (pos 5 ∷ pos 7 ∷ negsuc 4 ∷ pos 6 ∷ pos 1 ∷ []) ≡ 5 ∷ 6 ∷ [] }
{}
