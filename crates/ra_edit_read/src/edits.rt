ghost use Rattle.std.specs.Prelude.{◌≡◌, ◌<◌, length};
ghost use Rattle.ra_base.specs.Tables.{cell};
ghost use Rattle.ra_edit_read.specs.EditLists.{edit_at, row_of};

use ra_base::{Fixed, Machine, Resource, Service};
use std::marker::Model;

/// One edit of an instance's processes.
#[derive(Clone, Copy, Debug, PartialEq, Eq)]
pub enum Edit {
    /// Adds a process of a service, with a move cost. It is on this machine at the start and now.
    Add {
        service: Service,
        machine: Machine,
        move_cost: u32,
    },
    /// Removes a process. The last process takes its number.
    Retire {
        process: u32,
    },
    /// Gives a process other requirements.
    Resize {
        process: u32,
    },
}

/// Edits in their order, each with a requirement for each resource of an instance. Contracts see the edits and the
/// requirements as two lists.
#[derive(Drop)]
pub struct Edits {
    pub(crate) width: u32,
    pub(crate) edits: Fixed<Edit>,
    pub(crate) requirements: Fixed<u32>,
}

impl Model for Edits {
    ghost use Rattle.std.specs.Prelude.{◌≡◌, ◌*◌, ◌≤◌, length};
    ghost use Rattle.ra_edit_read.specs.EditLists.{EditLists};

    ghost Value = { EditLists };

    ghost view = { λ e. record {
      width = e.width;
      edits = e.edits.items;
      requirements = e.requirements.items;
    } };

    ghost invariant = { λ e. (length e.edits.items ≤ 100000) × ((e.width ≤ 20) × (length
        e.requirements.items ≡ length e.edits.items * e.width)) };
}

impl Edits {
    /// How many edits there are.
    pub fn len(&self) -> u64
        ensures { result ≡ length self.now.edits }
    {
        self.edits.len() as u64
    }

    /// Edit number `i`.
    #[tactic(auto, using(crate::proofs::ListLaws::edit_read))]
    pub fn edit(&self, i: u64) -> Edit
        requires { i < length self.now.edits }
        ensures { result ≡ edit_at self.now i }
    {
        self.edits.get(i as usize)
    }

    /// What the process of edit number `i` requires of a resource. An edit that retires a process requires nothing.
    #[tactic(auto, using(crate::proofs::ListLaws::row_cell))]
    pub fn requirement(&self, i: u64, r: Resource) -> u32
        requires edit { i < length self.now.edits }
        requires resource { r.0 < self.now.width }
        ensures { result ≡ cell self.now.width self.now.requirements i r.0 }
    {
        self.requirements_of(i)[r.0 as usize]
    }

    /// What the process of edit number `i` requires of each resource.
    #[tactic(auto, using(crate::proofs::ListLaws::row_cut, crate::proofs::ListLaws::row_length, crate::proofs::ListLaws::row_within))]
    pub fn requirements_of(&self, i: u64) -> &[u32]
        requires { i < length self.now.edits }
        ensures row { result.now ≡ row_of self.now.width self.now.requirements i }
        ensures one_each { length result.now ≡ self.now.width }
    {
        let start = i as usize * self.width as usize;
        &self.requirements.as_slice()[start..start + self.width as usize]
    }
}
