// Laws of the answers themselves. Each function here does nothing: its contract is the law.
ghost use Rattle.std.specs.Prelude.{◌≡◌, ℤ, ◌<◌, ◌+ℤ◌, ◌*ℤ◌, codes, false, int_div, int_rem, unsigned_abs};
ghost use Rattle.term_core.specs.Meaning.{Meaning, Atom};
ghost use Rattle.core_pure_calls.specs.Comparing.{are_equal};
ghost use Rattle.core_pure_calls.specs.Dictionary.{Dictionary, value_of, with_value, without_key};
ghost use Rattle.core_pure_calls.specs.Rows.{ArithmeticRows, DictionaryRows, ListRows, TupleRows};

/// The quotient and the remainder of two integers make up the dividend, and the remainder is nearer to 0
/// than the divisor (Erlang reference manual, "Arithmetic Expressions").
pub fn division_leaves_a_remainder()
    ensures whole { (a b : ℤ) → int_div a b *ℤ b +ℤ int_rem a b ≡ a }
    ensures less { (a b : ℤ) → 0 < unsigned_abs b → unsigned_abs (int_rem a b) < unsigned_abs b }
{}

/// Worked rows of the calls.
pub fn calls_answer_row_by_row()
    ensures arithmetic { ArithmeticRows }
    ensures lists { ListRows }
    ensures tuples { TupleRows }
    ensures dictionaries { DictionaryRows }
{}

/// What was put under a key of the process dictionary is there until it is put anew or erased, and what is under other
/// keys stays (Erlang reference manual, module erlang, `put/2`, `get/1`, `erase/1`).
pub fn dictionaries_keep_what_was_put()
    ensures got { (key value : Meaning) (d : Dictionary) → value_of key (with_value key value d) ≡ value }
    ensures others { (key value other : Meaning) (d : Dictionary) → are_equal key other ≡ false →
        value_of other (with_value key value d) ≡ value_of other d }
    ensures gone { (key : Meaning) (d : Dictionary) → value_of key (without_key key d) ≡ Atom (codes "undefined") }
    ensures left { (key other : Meaning) (d : Dictionary) → are_equal key other ≡ false →
        value_of other (without_key key d) ≡ value_of other d }
{}
