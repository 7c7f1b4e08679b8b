// The rules, made a type: tables are refused, or they are a history.
ghost use Rattle.history.specs.Taken.{Taken};

use super::ruled::History;
use answers::Refusal;
use tables::judge::judge_history;
use tables::lent::Tables;
use tables::rows::Rows;

impl<'a> History<'a> {
    // Codes 1 to 5 of three tables, or the history that they hold.
    pub fn of(tables: &Tables<'a>) -> Result<History<'a>, Refusal>
        ensures { Taken tables.now result }
    {
        judge_history(tables)?;
        Ok(History {
            start: tables.start,
            nodes: tables.nodes.len(),
            edges: Rows::of(&tables.edges),
            refs: Rows::of(&tables.refs),
        })
    }
}
