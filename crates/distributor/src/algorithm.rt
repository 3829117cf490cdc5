ghost use Rattle.std.specs.Prelude.{◌≡◌, ◌<◌};
ghost use Rattle.distributor.specs.Calls.{index_by_number};

// promise: `by_number` is the number modulo the count, 0 if that is 0
// contract: `by_number` (`place`, `among`), `by_number_picks_indexes`
/// The distribution algorithm of `lagtool` and of `lagffi`: the conversation number modulo the count of ports, and 0 if the count is
/// 0. The result is the index of the port among those that distribute, ascending (IEEE 802.1AX-2014, 6.2.4; profile).
pub fn by_number(conversation: u16, count: usize) -> usize
    ensures place { result ≡ index_by_number conversation count }
    ensures among { 0 < count → result < count }
{
    if count == 0 {
        return 0;
    }
    usize::from(conversation) % count
}
