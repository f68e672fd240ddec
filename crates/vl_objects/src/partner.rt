//! What a declaration finds under its name among those that count.

ghost use Rattle.std.specs.Prelude.{◌≡◌, length, IfOk, OnOk, Some, nat_eq};
ghost use Rattle.std.specs.Cmp.Lexicographic.{pointwise};
ghost use Rattle.std.specs.Option.{option_map};
ghost use Rattle.indexmap.specs.IndexMap.{Updates};
ghost use Rattle.vl_declares.specs.Plain.{all_plain, plain};
ghost use Rattle.vl_repeats.specs.Flags.{picked};
ghost use Rattle.vl_objects.specs.Partners.{AreOf, HaveNone, Notes, found_partner, plain_partner};

use dt_core::text::Text;
use indexmap::IndexMap;
use std::alloc::{AllocError, Global};
use vl_declares::declared::{Declared, Kind};
use vl_names::NameSet;

/// A net or a variable without a direction: its kind, and whether it is signed.
#[derive(Clone, Copy, Debug, PartialEq, Eq)]
pub struct Partner {
    pub kind: Kind,
    pub signed: bool,
}

/// The first net or variable of each name, and the names of directions without `wire` or `reg`.
#[derive(Drop)]
pub struct Partners {
    pub plain: IndexMap<Text, Partner>,
    pub bare: NameSet,
}

impl Partners {
    /// Of no declaration.
    pub fn new(alloc: Global) -> Partners
        ensures { HaveNone result }
    {
        Partners {
            plain: IndexMap::new(alloc),
            bare: NameSet::new(alloc),
        }
    }

    /// The net or variable of a name.
    pub fn of(&self, name: &Text) -> Option<Partner>
        ensures { option_map plain_partner result ≡ found_partner self.now name.now }
    {
        self.plain.get(name).copied()
    }

    // Notes a declaration that counts, in front of those that were noted.
    fn note_if(
        &mut self,
        alloc: Global,
        counts: bool,
        declared: &Declared<'_>,
    ) -> Result<(), AllocError>
        ensures { let d = plain declared.now in
            OnOk result (Notes counts d self.old self.new) }
    {
        if !counts {
            return Ok(());
        }
        match declared {
            Declared::Port(_, None, local) => self.bare.add(alloc, &local.name.text),
            Declared::Object(kind, local) => {
                let partner = Partner {
                    kind: *kind,
                    signed: local.signed,
                };
                set(alloc, &mut self.plain, &local.name.text, partner)
            }
            Declared::Port(_, Some(_), _) => Ok(()),
            Declared::Memory(_, _) => Ok(()),
            Declared::Parameter(_, _) => Ok(()),
            Declared::Genvar(_) => Ok(()),
            Declared::Routine(_) => Ok(()),
            Declared::Inner(_) => Ok(()),
        }
    }
}

/// Those of the declarations that count.
pub fn partners_of(
    alloc: Global,
    counted: &[bool],
    declared: &[Declared<'_>],
) -> Result<Partners, AllocError>
    requires { length counted.now ≡ length declared.now }
    ensures { let ds = picked counted.now (all_plain declared.now) in
        IfOk result (λ p. AreOf p ds) }
{
    let mut partners = Partners::new(alloc);
    // From the last on, so that the first of a name stands in the end.
    for k in (0..declared.len()).rev() {
        partners.note_if(alloc, counted[k], &declared[k])?;
    }
    Ok(partners)
}

fn set(
    alloc: Global,
    plain: &mut IndexMap<Text, Partner>,
    name: &Text,
    partner: Partner,
) -> Result<(), AllocError>
    ensures { OnOk result (Updates (pointwise nat_eq) plain.old plain.new name.now (Some partner)) }
{
    let key = copied(alloc, name)?;
    match plain.insert(key, partner) {
        Ok(_) => Ok(()),
        Err(_) => Err(AllocError),
    }
}

// A text of its own.
fn copied(alloc: Global, name: &Text) -> Result<Text, AllocError>
    ensures { IfOk result (λ t. t ≡ name.now) }
{
    match Text::copied(alloc, name.bytes()) {
        Ok(text) => Ok(text),
        Err(_) => Err(AllocError),
    }
}
