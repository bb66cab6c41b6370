// A pattern, always in its normal form.
ghost use Rattle.std.specs.Prelude.{◌≡◌, true, IfOk, IfSome};
ghost use Rattle.std.specs.Option.{option_copied};
ghost use Rattle.pj_pattern.specs.Patterns.{constant_in, covers_pattern, is_of_kind, is_of_one_kind, is_wild, matches_value};
ghost use Rattle.pj_pattern.specs.Normal.{normal_of, IsNormal};
ghost use Rattle.pj_pattern.specs.Meets.{meet_of};
ghost use Rattle.pj_pattern.specs.Shapes.{IsShape};

use crate::forms::{copy_form, form_covers, form_fits, form_is_wild, form_matches};
use crate::meets::meet_forms;
use crate::normal::{drop_repeats, members_form, range_form, sort_values};
use pj_value::{Kind, List, NoMemory, TryClone, Value};
use std::alloc::Global;
use std::marker::Model;

/// What a contract sees of a pattern: which of the five kinds of pattern of Tucker et al. (2003) it is, and its values.
#[derive(Drop)]
pub enum Form {
    /// It matches every value.
    Wild,
    /// It matches nothing.
    Empty,
    /// It matches its equal.
    Constant(Value),
    /// It matches the values of its ends' kind from the low end to the high end. An end that is missing is no bound.
    Range(Option<Value>, Option<Value>),
    /// It matches its members, which stand in order, each once.
    Members(List<Value>),
}

impl Form {
    /// Whether every value in it is of the kind.
    pub fn fits(&self, kind: Kind) -> bool
        ensures { result ≡ is_of_kind kind self.now }
    {
        form_fits(self, kind)
    }
}

/// The form of a pattern, lent.
#[derive(Clone, Copy)]
pub enum Shape<'a> {
    Wild,
    Empty,
    Constant(&'a Value),
    Range(Option<&'a Value>, Option<&'a Value>),
    Members(&'a [Value]),
}

/// What a punctuation says of a column (Tucker et al. 2003): which values of it are complete. A pattern is always in normal
/// form: a list stands in order without repeats and has two or more members; a range has an end, its low end is below its
/// high end where it has both, and no end is the least or the greatest value of its kind.
#[derive(Drop)]
pub struct Pattern {
    form: Form,
}

impl Model for Pattern {
    ghost use Rattle.pj_pattern.specs.declared.pattern.Form.{Form};
    ghost use Rattle.pj_pattern.specs.Normal.{IsNormal};

    ghost Value = { Form };

    ghost view = { λ p. p.form };

    ghost invariant = { λ p. IsNormal p.form };
}

impl Pattern {
    /// The wildcard, which matches every value.
    pub fn wild() -> Pattern
        ensures { result ≡ Form.Wild }
    {
        Pattern { form: Form::Wild }
    }

    /// The pattern that matches nothing.
    pub fn empty() -> Pattern
        ensures { result ≡ Form.Empty }
    {
        Pattern { form: Form::Empty }
    }

    /// The pattern that matches this value alone.
    pub fn constant(value: Value) -> Pattern
        ensures { result ≡ Form.Constant value }
    {
        Pattern {
            form: Form::Constant(value),
        }
    }

    /// The values from one to another, both among them; an end that is missing is no bound. Both are of one kind. It is the
    /// normal form of this range.
    #[tactic(auto, using(crate::proofs::NormalRanges::range_normal))]
    pub fn range(low: Option<Value>, high: Option<Value>) -> Pattern
        requires { is_of_one_kind (Form.Range low high) ≡ true }
        ensures { result ≡ normal_of (Form.Range low high) }
    {
        Pattern {
            form: range_form(low, high),
        }
    }

    /// The pattern that matches these values and no other; all are of one kind. It is the normal form of this list, or
    /// `NoMemory`.
    #[tactic(auto, using(crate::proofs::Rising::set_normal, crate::proofs::Rising::dropped_is_set))]
    pub fn list(_alloc: Global, values: List<Value>) -> Result<Pattern, NoMemory>
        requires { is_of_one_kind (Form.Members values) ≡ true }
        ensures { IfOk result (λ p. p ≡ normal_of (Form.Members values)) }
    {
        let mut values = values.into_vec();
        sort_values(&mut values)?;
        drop_repeats(&mut values);
        Ok(Pattern {
            form: members_form(List::of(values)),
        })
    }

    /// The pattern of this form, whose values are of one kind: its normal form, or `NoMemory`.
    pub fn of_form(alloc: Global, form: Form) -> Result<Pattern, NoMemory>
        requires { is_of_one_kind form ≡ true }
        ensures { IfOk result (λ p. p ≡ normal_of form) }
    {
        match form {
            Form::Wild => Ok(Pattern::wild()),
            Form::Empty => Ok(Pattern::empty()),
            Form::Constant(value) => Ok(Pattern::constant(value)),
            Form::Range(low, high) => Ok(Pattern::range(low, high)),
            Form::Members(values) => Ok(Pattern::list(alloc, values)?),
        }
    }

    /// What kind of pattern it is, and its values, lent. It is in normal form.
    pub fn shape(&self) -> Shape<'_>
        ensures shape { IsShape self.now result }
        ensures normal { IsNormal self.now }
    {
        match &self.form {
            Form::Wild => Shape::Wild,
            Form::Empty => Shape::Empty,
            Form::Constant(value) => Shape::Constant(value),
            Form::Range(low, high) => Shape::Range(low.as_ref(), high.as_ref()),
            Form::Members(values) => Shape::Members(values.as_slice()),
        }
    }

    /// Whether every value in it is of the kind.
    pub fn fits(&self, kind: Kind) -> bool
        ensures { result ≡ is_of_kind kind self.now }
    {
        form_fits(&self.form, kind)
    }

    /// Whether the value is one that the pattern stands for.
    pub fn matches(&self, value: &Value) -> bool
        ensures { result ≡ matches_value self.now value.now }
    {
        form_matches(&self.form, value)
    }

    /// The value that it matches alone, where it is a constant.
    pub fn as_constant(&self) -> Option<&Value>
        ensures value { option_copied result ≡ constant_in self.now }
        ensures is { IfSome result (λ value. self.now ≡ Form.Constant value.now) }
    {
        match &self.form {
            Form::Wild => None,
            Form::Empty => None,
            Form::Constant(value) => Some(value),
            Form::Range(_, _) => None,
            Form::Members(_) => None,
        }
    }

    /// Whether it covers the other: a wildcard covers all, and an empty pattern is covered by all; a constant is covered
    /// where it is matched, a list where each member is, and a range by a range of its kind whose ends are no closer.
    /// What is covered is matched.
    pub fn covers(&self, other: &Pattern) -> bool
        ensures { result ≡ covers_pattern self.now other.now }
    {
        form_covers(&self.form, &other.form)
    }

    /// The pattern that matches exactly what both match, or `NoMemory`. Both fit one kind.
    #[tactic(auto, using(crate::proofs::NormalMeets::meet_normal))]
    pub fn meet(&self, alloc: Global, other: &Pattern) -> Result<Pattern, NoMemory>
        requires { (kind : Kind) × (is_of_kind kind self.now ≡ true) × (is_of_kind kind other.now ≡ true) }
        ensures { IfOk result (λ p. p ≡ meet_of self.now other.now) }
    {
        Ok(Pattern {
            form: meet_forms(alloc, &self.form, &other.form)?,
        })
    }

    /// Whether it is the wildcard, which matches every value.
    pub fn is_wild(&self) -> bool
        ensures { result ≡ is_wild self.now }
    {
        form_is_wild(&self.form)
    }

    /// An equal pattern, or `NoMemory`.
    pub fn copy(&self, alloc: Global) -> Result<Pattern, NoMemory>
        ensures { IfOk result (λ p. p ≡ self.now) }
    {
        Ok(Pattern {
            form: copy_form(alloc, &self.form)?,
        })
    }
}

impl TryClone for Pattern {
    fn try_clone(&self, alloc: Global) -> Result<Pattern, NoMemory> {
        self.copy(alloc)
    }
}
