// What lies in a cell.
#[derive(Drop)]
pub enum Item<B, S> {
    Board(B),
    Shard(S),
}
