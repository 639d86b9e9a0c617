//! Laws of texts with labels.
ghost use Rattle.std.specs.Prelude.{◌≡◌, ◌≤◌, ℕ, Bool, true, false};
ghost use Rattle.mw_model.specs.Terms.Object.{Object};
ghost use Rattle.mw_model.specs.Values.Primitive.{is_pair};
ghost use Rattle.mw_model.specs.Texts.Written.{IsCompact, IsLabelled};
ghost use Rattle.mw_print.specs.Labelling.{labelled_text, labelled_next};
ghost use Rattle.mw_print.specs.Repeats.{stands};

/// Whichever pairs have labels, the text with labels of an object is read as just this object, also before a further symbol; it holds no
/// line end, and its labels are numbered upwards from the first one. It is compact where each pair that stands more than once in the
/// object has a label.
pub fn labelled_texts_are_read()
    ensures read { (has_label : Object → Bool) (x : Object) (first : ℕ) → IsLabelled x first (labelled_text has_label x first) (labelled_next has_label x first) }
    ensures compact { (has_label : Object → Bool) (x : Object) (first : ℕ) → ((p : Object) → is_pair p ≡ true → has_label p ≡ false → stands p x ≤ 1) → IsCompact x first (labelled_text has_label x first) }
{}
