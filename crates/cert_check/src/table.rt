//! The table of a certificate, for looking nodes up.

ghost use Rattle.std.specs.Prelude.{◌≡◌, IfOk, option_map};
ghost use Rattle.std.specs.List.{IsDistinct};
ghost use Rattle.std.specs.Map.{keys_of};
ghost use Rattle.closed_book.specs.ClosedBook.{table_in};
ghost use Rattle.book_rules.specs.Same.{same_node};
ghost use Rattle.cert_check.specs.Table.{placed};

use book_rules::tests_tell_which_are_one;
use call_context::{Node, equal_nodes_are_one};
use indexmap::IndexMap;
use no_memory::Memory;
use std::alloc::Global;
use std::marker::Model;

/// Nodes with their states, each found in constant time. Contracts see the rows.
#[derive(Drop)]
pub struct Table<A> {
    places: IndexMap<Node, usize>,
    rows: Vec<(Node, A)>,
}

impl<A> Model for Table<A> {
    ghost use Rattle.std.specs.Prelude.{◌≡◌, List};
    ghost use Rattle.call_context.specs.declared.node.Node.{Node as ANode};
    ghost use Rattle.cert_check.specs.Table.{placed};

    ghost Value = { List (ANode × A) };

    ghost view = { λ t. t.rows.items };

    ghost invariant = { λ t. t.places.entries ≡ placed 0 t.rows.items };
}

/// The place of each node.
fn places_of<A>(alloc: Global, rows: &[(Node, A)]) -> Result<IndexMap<Node, usize>, Memory>
    requires { IsDistinct same_node (keys_of rows.now) }
    ensures { IfOk result (λ places. places.entries ≡ placed 0 rows.now) }
{
    equal_nodes_are_one();
    tests_tell_which_are_one();
    let mut places = IndexMap::new(alloc);
    for (place, row) in rows.iter().enumerate() {
        places.insert(row.0, place)?;
    }
    Ok(places)
}

impl<A> Table<A> {
    /// The table of these rows, of which no two have one node.
    pub fn new(alloc: Global, rows: Vec<(Node, A)>) -> Result<Self, Memory>
    where
        A: Drop,
        requires { IsDistinct same_node (keys_of rows.items) }
        ensures { IfOk result (λ table. table ≡ rows.items) }
    {
        let places = places_of(alloc, &rows)?;
        Ok(Table { places, rows })
    }

    /// The state of a node.
    pub fn get(&self, node: &Node) -> Option<&A>
        ensures { option_map (λ held. held.now) result ≡ table_in self.now node.now }
    {
        equal_nodes_are_one();
        tests_tell_which_are_one();
        let place = *self.places.get(node)?;
        let (_, state) = &self.rows[place];
        Some(state)
    }

    /// The rows.
    pub fn as_slice(&self) -> &[(Node, A)]
        ensures { result.now ≡ self.now }
    {
        self.rows.as_slice()
    }

    /// The rows.
    pub fn into_rows(self) -> Vec<(Node, A)>
        ensures { result.items ≡ self }
    {
        let Table { rows, .. } = self;
        rows
    }
}
