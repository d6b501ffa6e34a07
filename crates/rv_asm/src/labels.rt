//! Where the labels of a text stand.

ghost use Rattle.std.specs.Prelude.{◌≡◌, List, ℕ, IfOk};
ghost use Rattle.std.specs.BTreeMap.{get_by};
ghost use Rattle.std.specs.Ordering.{nat_cmp};
ghost use Rattle.std.specs.Cmp.Lexicographic.{slice_cmp};
ghost use Rattle.rv_asm.specs.Programs.{program, first_with};
ghost use Rattle.rv_asm.specs.Places.{place_of};

use crate::lines::Lines;
use cos_base::NoMemory;
use std::alloc::Global;
use std::collections::BTreeMap;

/// Where a label is given first: the number of the line, and the address.
#[derive(Clone, Copy, Drop)]
pub struct Place {
    pub number: u64,
    pub address: u128,
}

/// The labels of a text, as each is given first.
#[derive(Drop)]
pub struct Labels<'a> {
    text: &'a [u8],
    origin: u32,
    places: BTreeMap<&'a [u8], Place>,
    ghost complete: { (name : List ℕ) → get_by (λ k. slice_cmp nat_cmp name k.now) places
        ≡ place_of (first_with name (program origin text.now)) },
}

/// Where each label of a text is given first.
fn places<'a>(
    alloc: Global,
    text: &'a [u8],
    origin: u32,
) -> Result<BTreeMap<&'a [u8], Place>, NoMemory>
    ensures { IfOk result (λ map. (name : List ℕ) → get_by (λ k. slice_cmp nat_cmp name k.now) map
        ≡ place_of (first_with name (program origin text.entry.now))) }
{
    let mut places = BTreeMap::new(alloc);
    let mut lines = Lines::of(text, origin);
    'lines: while let Some(line) = lines.next() {
        if let Some(name) = line.label {
            if places.get(name).is_none() {
                let place = Place {
                    number: line.number,
                    address: line.address,
                };
                match places.insert(name, place) {
                    Ok(_) => {}
                    Err(_) => return Err(NoMemory),
                }
            }
        }
    }
    Ok(places)
}

impl<'a> Labels<'a> {
    ghost use Rattle.rv_asm.specs.Labelled.{lines_of};

    /// The labels of a text whose first word lies at the origin.
    pub fn of(alloc: Global, text: &'a [u8], origin: u32) -> Result<Labels<'a>, NoMemory>
        ensures { IfOk result (λ labels. lines_of labels ≡ program origin text.entry.now) }
    {
        let places = places(alloc, text, origin)?;
        Ok(Labels {
            text,
            origin,
            places,
        })
    }

    /// Where a label is given first.
    pub fn find(&self, name: &[u8]) -> Option<Place>
        ensures { result ≡ place_of (first_with name.now (lines_of self.now)) }
    {
        self.places.get(name).copied()
    }
}
