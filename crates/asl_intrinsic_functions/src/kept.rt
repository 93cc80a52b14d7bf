// Items kept as long as they are the same as none kept before. Those of one mark are linked, so that only they are compared.
ghost use Rattle.std.specs.Prelude.{◌≡◌, [], Ok};
ghost use Rattle.std.specs.List.{list_any};
ghost use Rattle.asl_json.specs.Meaning.{same};
ghost use Rattle.asl_json.specs.View.{data_of, items_of};
ghost use Rattle.asl_intrinsic_functions.specs.Gives.{Gives};
ghost use Rattle.asl_intrinsic_functions.specs.private.Loops.{kept_with};
ghost use Rattle.asl_intrinsic_functions.specs.private.Marks.{mark};

use crate::fault::EvalFault;
use crate::mark::mark;
use asl_json::Json;
use asl_json_same::same;
use std::alloc::Global;
use std::collections::HashMap;
use std::marker::Model;

/// Items, linked by their marks. Contracts see them as their list.
#[derive(Drop)]
pub(crate) struct Kept {
    items: Vec<Json>,
    /// For each item, the number of the latest one before it that has its mark.
    links: Vec<Option<usize>>,
    /// For each mark, the number of the latest item that has it.
    latest: HashMap<u64, usize>,
}

impl Model for Kept {
    ghost use Rattle.std.specs.Prelude.{List, nat_eq};
    ghost use Rattle.std.specs.Coded.{coded_list};
    ghost use Rattle.std.specs.HashMap.{get};
    ghost use Rattle.asl_json.specs.private.Code.{coded_data};
    ghost use Rattle.asl_json_data.specs.Data.{Data};
    ghost use Rattle.asl_json.specs.View.{items_of};
    ghost use Rattle.asl_intrinsic_functions.specs.private.Links.{AreLinked};

    ghost Value = { List Data };

    ghost coded = { coded_list coded_data };

    ghost view = { λ k. items_of k.items.items };

    ghost invariant = { λ k. AreLinked (get nat_eq k.latest) k.links.items (items_of k.items.items) };
}

impl Kept {
    pub(crate) fn new(alloc: Global) -> Kept
        ensures { result ≡ [] }
    {
        Kept {
            items: Vec::new(alloc),
            links: Vec::new(alloc),
            latest: HashMap::new(alloc),
        }
    }

    /// Whether one of them is the same as the item, which has this mark.
    fn has(&self, item: &Json, item_mark: u64) -> bool
        requires { item_mark ≡ mark (data_of item.now) }
        ensures { result ≡ list_any (λ x. same x (data_of item.now)) self.now }
    {
        let mut next = self.latest.get(&item_mark).copied();
        while let Some(at) = next {
            if same(&self.items[at], item) {
                return true;
            }
            next = self.links[at];
        }
        false
    }

    /// These with a copy of the item behind them, where it is the same as none of them.
    pub(crate) fn with(self, alloc: Global, item: &Json) -> Result<Kept, EvalFault>
        ensures { Gives (λ k. k) (Ok (kept_with self (data_of item.now))) result }
    {
        let item_mark = mark(item);
        if self.has(item, item_mark) {
            return Ok(self);
        }
        let Kept {
            mut items,
            mut links,
            mut latest,
        } = self;
        links.push(latest.insert(item_mark, items.len())?)?;
        items.push(item.try_clone(alloc)?)?;
        Ok(Kept {
            items,
            links,
            latest,
        })
    }

    pub(crate) fn into_items(self) -> Vec<Json>
        ensures { items_of result.items ≡ self }
    {
        let Kept { items, .. } = self;
        items
    }
}
