ghost use Rattle.std.specs.Prelude.{◌≡◌, ◌<◌};
ghost use Rattle.distributor.specs.Calls.{index_by_number};

/// The distribution algorithm of the vectors, for both systems: the conversation number modulo the count of ports, and
/// 0 if the count is 0 (6.2.4; profile). A function of another crate cannot be handed over itself.
pub(crate) fn by_number(conversation: u16, count: usize) -> usize
    ensures place { result ≡ index_by_number conversation count }
    ensures among { 0 < count → result < count }
{
    distributor::by_number(conversation, count)
}
