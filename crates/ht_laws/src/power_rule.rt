//! The power rule: what it prints, that it gives one answer, and that it speaks of elements.
ghost use Rattle.std.specs.Prelude.{◌≡◌, ℕ, ◌≤◌, ℤ, pos, ◌<ℤ◌, List};
ghost use Rattle.ht_word.specs.declared.shape.Shape.{Shape};
ghost use Rattle.ht_num.specs.Numbers.{IsRatio};
ghost use Rattle.ht_pair.specs.declared.row.Row.{Row};
ghost use Rattle.ht_pair.specs.Actions.{Alike, IsCanonical};
ghost use Rattle.ht_pair.specs.Conjugacy.{ArePowerConjugate, Conjugates};
ghost use Rattle.ht_pair.specs.NormalConjugators.{IsNormal};
ghost use Rattle.ht_pair.specs.Pairs.{IsPair, identity};
ghost use Rattle.ht_pair.specs.PowerRule.{PowerRule};
ghost use Rattle.ht_pair.specs.PowerTrials.{PowerAnswer, Powers};
ghost use Rattle.ht_pair.specs.Products.{IsPower};
ghost use Rattle.ht_laws.specs.PowerAnswers.{AreCompared, SameAnswer};

/// What the power rule prints conjugates the power of the one by the first exponent into that of the
/// other by the second. The first exponent is above 0, neither power is the identity, and the
/// conjugator is in canonical form, and normal for the powers that were compared.
pub fn what_the_power_rule_prints_conjugates_the_powers()
    ensures conjugates { (shape : Shape) (a b : List Row) (budget : ℕ) (i j : ℤ) (h s t : List Row) → IsPair shape a → IsPair shape b → PowerRule shape a b budget (Powers i j h) → IsPower shape a i s → IsPower shape b j t → Conjugates shape h s t }
    ensures above { (shape : Shape) (a b : List Row) (budget : ℕ) (i j : ℤ) (h : List Row) → IsPair shape a → IsPair shape b → PowerRule shape a b budget (Powers i j h) → pos 0 <ℤ i }
    ensures first_moves { (shape : Shape) (a b : List Row) (budget : ℕ) (i j : ℤ) (h s : List Row) → IsPair shape a → IsPair shape b → PowerRule shape a b budget (Powers i j h) → IsPower shape a i s → ¬ Alike shape s (identity shape) }
    ensures second_moves { (shape : Shape) (a b : List Row) (budget : ℕ) (i j : ℤ) (h t : List Row) → IsPair shape a → IsPair shape b → PowerRule shape a b budget (Powers i j h) → IsPower shape b j t → ¬ Alike shape t (identity shape) }
    ensures power_conjugate { (shape : Shape) (a b : List Row) (budget : ℕ) (i j : ℤ) (h : List Row) → IsPair shape a → IsPair shape b → PowerRule shape a b budget (Powers i j h) → ArePowerConjugate shape a b i j }
    ensures canonical { (shape : Shape) (a b : List Row) (budget : ℕ) (i j : ℤ) (h : List Row) → IsPair shape a → IsPair shape b → PowerRule shape a b budget (Powers i j h) → IsCanonical shape h }
    ensures normal { (shape : Shape) (a b : List Row) (budget : ℕ) (i j : ℤ) (h : List Row) → IsPair shape a → IsPair shape b → PowerRule shape a b budget (Powers i j h) → (f : List Row) × (g : List Row) × AreCompared shape a b i j f g × IsNormal shape h f g }
{}

/// Two answers of the power rule are equal, but for the conjugator that is printed.
pub fn two_answers_of_the_power_rule_differ_in_the_conjugator_alone()
    ensures { (shape : Shape) (a b : List Row) (budget : ℕ) (x y : PowerAnswer) → IsPair shape a → IsPair shape b → PowerRule shape a b budget x → PowerRule shape a b budget y → SameAnswer x y }
{}

/// The power rule speaks of elements: its answers are those for each two pairs that move words alike.
pub fn the_power_rule_speaks_of_elements()
    ensures { (shape : Shape) (a b c d : List Row) (budget : ℕ) (answer : PowerAnswer) → IsPair shape a → IsPair shape b → IsPair shape c → IsPair shape d → Alike shape a c → Alike shape b d → PowerRule shape a b budget answer → PowerRule shape c d budget answer }
{}

/// A fraction has one lowest form.
pub fn a_fraction_has_one_lowest_form()
    ensures { (b a p q r s : ℕ) → 1 ≤ a → IsRatio b a p q → IsRatio b a r s → (p ≡ r) × (q ≡ s) }
{}
