//! The further rules.
ghost use Rattle.std.specs.Prelude.{◌≡◌};
ghost use Rattle.mw_commands.specs.Commands.DerivationTest.{rules, rule_among};
ghost use Rattle.mw_heap.specs.Objects.{object_at, IsIn};
ghost use Rattle.mw_lower.specs.Further.{rule_of, further_rules, further_among, most_premises, most_premises_of};

use mw_heap::{Heap, Ref, Word};
use mw_rules::Method;

/// A rule of derivations that is no method of proof.
#[derive(Clone, Copy)]
pub(crate) enum Further {
    CommuteOr,
    ModusPonens,
    Symmetry,
    Transitivity,
    Replace,
}

impl Further {
    // How many premises it takes at most; REPLACE takes any number.
    fn most_premises(self) -> Option<usize>
        ensures { result ≡ most_premises_of (rule_of self) }
    {
        match self {
            Further::CommuteOr | Further::Symmetry => Some(1),
            Further::ModusPonens | Further::Transitivity => Some(2),
            Further::Replace => None,
        }
    }
}

/// The further rule that a symbol names.
pub(crate) fn further_of(heap: &Heap, x: Ref) -> Option<Further>
    requires { IsIn heap.now.objects x }
    ensures { result ≡ further_among further_rules (object_at heap.now.objects x) }
{
    if heap.is_word(Some(x), Word::CommuteOr) {
        Some(Further::CommuteOr)
    } else if heap.is_word(Some(x), Word::ModusPonens) {
        Some(Further::ModusPonens)
    } else if heap.is_word(Some(x), Word::Symmetry) {
        Some(Further::Symmetry)
    } else if heap.is_word(Some(x), Word::Transitivity) {
        Some(Further::Transitivity)
    } else if heap.is_word(Some(x), Word::Replace) {
        Some(Further::Replace)
    } else {
        None
    }
}

/// How many premises a step takes at most by the rule that a symbol names: none where it names no rule.
pub(crate) fn most_premises(heap: &Heap, x: Ref) -> Option<usize>
    requires { IsIn heap.now.objects x }
    ensures { result ≡ most_premises (rule_among rules (object_at heap.now.objects x)) }
{
    if let Some(rule) = further_of(heap, x) {
        return rule.most_premises();
    }
    match Method::of(heap, x) {
        Some(method) => method.most_subproofs(),
        None => Some(0),
    }
}
