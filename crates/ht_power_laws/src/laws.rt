//! What conjugate powers have in common, and what the power rule's answer none says.
ghost use Rattle.std.specs.Prelude.{◌≡◌, ℕ, ◌≤◌, ◌*◌, ◌/◌, ℤ, pos, neg_ℤ, List};
ghost use Rattle.ht_word.specs.declared.word.Word.{Word};
ghost use Rattle.ht_word.specs.declared.shape.Shape.{Shape};
ghost use Rattle.ht_pair.specs.declared.row.Row.{Row};
ghost use Rattle.ht_pair.specs.Budgets.{FitsBudget, IsOverBudget};
ghost use Rattle.ht_pair.specs.Conjugacy.{AreConjugate, ArePowerConjugate};
ghost use Rattle.ht_pair.specs.FiniteTrials.{IsTried};
ghost use Rattle.ht_pair.specs.Pairs.{IsPair};
ghost use Rattle.ht_pair.specs.Parts.{HasParts};
ghost use Rattle.ht_pair.specs.PowerRule.{BothFinite, PowerRule};
ghost use Rattle.ht_pair.specs.PowerSizes.{Sign, signed};
ghost use Rattle.ht_pair.specs.PowerTrials.{NoPowers};
ghost use Rattle.ht_pair.specs.Products.{IsPower};
ghost use Rattle.ht_pair.specs.Rates.{HasRates};
ghost use Rattle.ht_pair.specs.SemiNormal.{IsQuasinormal};

/// Where some powers of two elements of finite order that aren't the identity are conjugate, some d that
/// the power rule tries gives conjugate powers: those by the orders over d.
pub fn conjugate_powers_of_finite_order()
    ensures { (shape : Shape) (a b : List Row) (X Y : List Word) (M N : ℕ) (i j : ℤ) → IsPair shape a → IsPair shape b → IsQuasinormal shape a X → IsQuasinormal shape b Y → BothFinite shape a b X Y M N → ArePowerConjugate shape a b i j → (d : ℕ) × IsTried shape a b X Y M N d × ((f g : List Row) → IsPower shape a (pos (M / d)) f → IsPower shape b (pos (N / d)) g → AreConjugate shape f g) }
{}

/// Where powers are conjugate, the exponents are to one another as the rates of the elements: those at
/// the attractors, and those at the repellers. Where one exponent is below 0, attractors of the one
/// element are to repellers of the other.
pub fn rates_of_conjugate_powers_are_in_ratio()
    ensures plus { (shape : Shape) (a b s t : List Row) (X Y : List Word) (M ahead_a behind_a ahead_b behind_b i j : ℕ) → IsPair shape a → IsPair shape b → IsQuasinormal shape a X → IsQuasinormal shape b Y → HasRates shape a b X Y M ahead_a behind_a ahead_b behind_b → 1 ≤ i → 1 ≤ j → IsPower shape a (pos i) s → IsPower shape b (pos j) t → AreConjugate shape s t → (i * ahead_a ≡ j * ahead_b) × (i * behind_a ≡ j * behind_b) }
    ensures minus { (shape : Shape) (a b s t : List Row) (X Y : List Word) (M ahead_a behind_a ahead_b behind_b i j : ℕ) → IsPair shape a → IsPair shape b → IsQuasinormal shape a X → IsQuasinormal shape b Y → HasRates shape a b X Y M ahead_a behind_a ahead_b behind_b → 1 ≤ i → 1 ≤ j → IsPower shape a (pos i) s → IsPower shape b (neg_ℤ (pos j)) t → AreConjugate shape s t → (i * ahead_a ≡ j * behind_b) × (i * behind_a ≡ j * ahead_b) }
{}

/// Conjugate powers of infinite parts have conjugate roots: where the powers by p·k and q·k are conjugate
/// for some k from 1 on, those by p·M and q·M are, where M is the common period of all ends.
pub fn powers_of_infinite_parts_have_equal_roots()
    ensures { (shape : Shape) (a b first s second t f g root other : List Row) (X Y : List Word) (M ahead_a behind_a ahead_b behind_b k p q : ℕ) (sign : Sign) → IsPair shape a → IsPair shape b → IsQuasinormal shape a X → IsQuasinormal shape b Y → HasRates shape a b X Y M ahead_a behind_a ahead_b behind_b → HasParts shape a X first s → HasParts shape b Y second t → 1 ≤ k → 1 ≤ p → 1 ≤ q → IsPower shape s (pos (p * k)) f → IsPower shape t (signed sign (q * k)) g → AreConjugate shape f g → IsPower shape s (pos (p * M)) root → IsPower shape t (signed sign (q * M)) other → AreConjugate shape root other }
{}

/// What fits a budget of expansions fits it in all its powers, and so do the powers of its infinite part.
pub fn powers_and_parts_fit_the_budget()
    ensures powers { (shape : Shape) (p s : List Row) (k : ℤ) (budget : ℕ) → IsPair shape p → IsPower shape p k s → FitsBudget shape budget p → ¬ IsOverBudget shape budget s }
    ensures parts { (shape : Shape) (p first second s : List Row) (X : List Word) (k : ℤ) (budget : ℕ) → IsPair shape p → IsQuasinormal shape p X → HasParts shape p X first second → IsPower shape second k s → FitsBudget shape budget p → ¬ IsOverBudget shape budget s }
{}

/// Where the power rule answers none, no powers that aren't the identity are conjugate, by any exponents
/// and any element.
pub fn where_the_power_rule_answers_none_no_powers_are_conjugate()
    ensures { (shape : Shape) (a b : List Row) (budget : ℕ) (i j : ℤ) → IsPair shape a → IsPair shape b → PowerRule shape a b budget NoPowers → ¬ ArePowerConjugate shape a b i j }
{}
