//! Which rests of repairs are meant, as the steps before them are taken.
ghost use Rattle.std.specs.Prelude.{◌≡◌, cond, false, slice_index_or};
ghost use Rattle.lrpar_parse_repair.specs.PlainSteps.{plain_step};
ghost use Rattle.lrpar_parse_cpctplus.specs.declared.form.Class.TheVariants.{Nothing};
ghost use Rattle.lrpar_parse_cpctplus.specs.Forming.{class_after, form_after, form_of};

use lrpar_grammar::span::StorageIndex;
use lrpar_parse_repair::repair::RepairStep;

/// Which of the rests of repairs are meant, by the tokens that they insert.
#[derive(Clone, Copy)]
pub(crate) enum Class {
    /// Those that insert no token to be avoided.
    Clean,
    /// Those that insert one.
    Avoided,
    /// All.
    Any,
    /// None of them.
    Nothing,
}

/// Which of the rests of repairs are meant, and whether the step before them is a Delete.
#[derive(Clone, Copy)]
pub(crate) struct Form {
    pub(crate) class: Class,
    pub(crate) deleted: bool,
}

impl Form {
    /// The form of a class, after a Delete or another step.
    pub(crate) fn new(class: Class, deleted: bool) -> Self
        ensures { result ≡ form_of class deleted }
    {
        Form { class, deleted }
    }

    /// What the rest has to be after its first step.
    pub(crate) fn after<StorageT: StorageIndex>(
        self,
        avoided: &[bool],
        step: RepairStep<StorageT>,
    ) -> Form
        ensures { result ≡ form_after avoided.now self (plain_step StorageT.index step) }
    {
        match step {
            RepairStep::Insert(token) => Form {
                class: self.after_insert(is_set(avoided, usize::from(token))),
                deleted: false,
            },
            RepairStep::Delete => Form {
                class: self.class,
                deleted: true,
            },
            RepairStep::Shift => Form {
                class: self.class,
                deleted: false,
            },
        }
    }

    // The class of the rest after an Insert of a token, which is one to be avoided or not. No Insert comes right after a Delete.
    fn after_insert(self, is_avoided: bool) -> Class
        ensures { result ≡ cond self.deleted Nothing (class_after is_avoided self.class) }
    {
        if self.deleted {
            return Class::Nothing;
        }
        if !is_avoided {
            return self.class;
        }
        match self.class {
            Class::Clean | Class::Nothing => Class::Nothing,
            Class::Avoided | Class::Any => Class::Any,
        }
    }
}

// Whether the list says so of this number; past the list it doesn't.
fn is_set(list: &[bool], number: usize) -> bool
    ensures { result ≡ slice_index_or list.now number false }
{
    match list.get(number) {
        Some(is_set) => *is_set,
        None => false,
    }
}
