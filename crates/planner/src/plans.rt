//! What a plan is made of: the route, the query for each shard, and what is made of the answers.
use crate::routes::Route;
use sql_eval::Grouping;
use sql_tree::{Item, Key, LimitClause};
use vschema::Query;
use vt_value::Items;

/// What is made of the rows of the pieces: they are joined to groups if the query is aggregated, sorted, sliced and cut to the columns of
/// the answer.
#[derive(Drop)]
pub struct Finish {
    /// How the groups of the pieces are joined, if the query is aggregated.
    pub grouping: Option<Grouping>,
    /// The columns of the answer, by their ordinals in the rows of the pieces, or of the joined groups.
    pub columns: Items<usize>,
    /// The sort keys, by the ordinals of their columns in these rows.
    pub order_by: Items<Key<usize>>,
    /// What is left of the sorted rows, all of them without one.
    pub limit: Option<LimitClause>,
}

/// A query on shards: its route, the query that each shard answers, and the finish.
#[derive(Drop)]
pub struct Plan {
    pub route: Route,
    /// The query as each shard gets it, but for the members of an IN that are cut to a shard's own (`piece_for`).
    pub piece: Query,
    pub finish: Finish,
    /// What the answer shows.
    pub items: Items<Item<usize>>,
    /// Whether each of these was written with its table's name.
    pub qualified: Items<bool>,
}
