//! Bindings, found by their mode and chord.
ghost use Rattle.std.specs.Prelude.{◌≡◌, [], IfOk, OnOk};
ghost use Rattle.wm_binds.specs.Binds.{with_bind};
ghost use Rattle.wm_binds.specs.Table.{IsKey};

use crate::config::Bind;
use indexmap::IndexSet;
use std::alloc::Global;
use std::marker::Model;
use wm_base::{List, NoMemory};

/// Bindings in order, one for each chord of each mode. A binding is found in the same time however many there are.
#[derive(Drop)]
pub struct BindTable {
    binds: Vec<Bind>,
    /// The mode and the chord of each binding, at its place.
    keys: IndexSet<(String, String)>,
}

impl Model for BindTable {
    ghost use Rattle.std.specs.Prelude.{List};
    ghost use Rattle.std.specs.Coded.{coded_list};
    ghost use Rattle.wm_binds.specs.contracts.config.Bind.{the_row};
    ghost use Rattle.wm_binds.specs.declared.config.Bind.{Bind as OneBind};
    ghost use Rattle.wm_binds.specs.Table.{AreKeys};

    ghost Value = { List OneBind };

    ghost coded = { coded_list the_row.coded };

    ghost view = { λ t. t.binds.items };

    ghost invariant = { λ t. AreKeys t.keys.keys t.binds.items };
}

impl BindTable {
    /// No bindings.
    pub fn new(alloc: Global) -> BindTable
        ensures { result ≡ [] }
    {
        BindTable {
            binds: Vec::new(alloc),
            keys: IndexSet::new(alloc),
        }
    }

    /// One more binding, in the place of one of the same mode and chord.
    pub fn put(&mut self, alloc: Global, bind: Bind) -> Result<(), NoMemory>
        ensures { OnOk result (self.new ≡ with_bind bind self.old) }
    {
        match key_of(alloc, &bind) {
            Ok(key) => self.put_keyed(key, bind),
            Err(error) => {
                drop(bind);
                Err(error)
            }
        }
    }

    /// The same of a binding with its key.
    fn put_keyed(&mut self, key: (String, String), bind: Bind) -> Result<(), NoMemory>
        requires { IsKey key bind }
        ensures { OnOk result (self.new ≡ with_bind bind self.old) }
    {
        if self.binds.reserve(1).is_err() {
            drop(key);
            drop(bind);
            return Err(NoMemory);
        }
        match self.keys.insert_full(key) {
            Ok((_, true)) => self.binds.push_reserved(bind),
            Ok((place, false)) => self.binds[place] = bind,
            Err(refused) => {
                drop(refused);
                drop(bind);
                return Err(NoMemory);
            }
        }
        Ok(())
    }

    /// The bindings in order.
    pub fn into_list(self) -> List<Bind>
        ensures { result ≡ self }
    {
        let BindTable { binds, keys } = self;
        drop(keys);
        List::of(binds)
    }
}

/// The mode and the chord of a binding.
fn key_of(alloc: Global, bind: &Bind) -> Result<(String, String), NoMemory>
    ensures { IfOk result (λ key. IsKey key bind.now) }
{
    let mode = String::from_str(alloc, bind.mode.as_str())?;
    let chord = String::from_str(alloc, bind.chord.as_str())?;
    Ok((mode, chord))
}
