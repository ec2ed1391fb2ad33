ghost use Rattle.deno_graph_json.specs.Json.Position.{json_of_position, json_of_range, reads_position, reads_range, IsHeldPosition, IsHeldRange};

use crate::read::read_pair;
use crate::{Element, FromJson, JsonWriter, Pair, ReadError, ToJson};
use deno_graph_base::text::{Position, PositionRange};
use std::alloc::{AllocError, Global};

impl ToJson for Position {
    ghost json = { json_of_position };

    ghost is_held = { IsHeldPosition };

    #[tactic(auto, using(crate::proofs::WritingItems::two_held))]
    fn write(&self, out: &mut JsonWriter) -> Result<(), AllocError> {
        out.items(&[self.line, self.character])
    }
}

impl<Whole> FromJson<Whole> for Position {
    ghost reads = { reads_position };

    #[tactic(auto, using(crate::proofs::Reading::reading), unfolding(crate::specs::Json::Position::reads_position))]
    fn from_json(alloc: Global, value: Element<'_>) -> Result<Position, ReadError> {
        let (line, character) = read_pair::<Whole, _>(alloc, value, Pair::Position)?;
        Ok(Position { line, character })
    }
}

impl ToJson for PositionRange {
    ghost json = { json_of_range };

    ghost is_held = { IsHeldRange };

    #[tactic(auto, using(crate::proofs::WritingItems::two_held))]
    fn write(&self, out: &mut JsonWriter) -> Result<(), AllocError> {
        out.items(&[self.start, self.end])
    }
}

impl<Whole> FromJson<Whole> for PositionRange {
    ghost reads = { reads_range };

    #[tactic(auto, using(crate::proofs::Reading::reading), unfolding(crate::specs::Json::Position::reads_range))]
    fn from_json(alloc: Global, value: Element<'_>) -> Result<PositionRange, ReadError> {
        let (start, end) = read_pair::<Whole, _>(alloc, value, Pair::PositionRange)?;
        Ok(PositionRange { start, end })
    }
}
