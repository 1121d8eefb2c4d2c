//! Stocks.
ghost use Rattle.std.specs.Prelude.{◌≡◌};
ghost use Rattle.word_layout.specs.Values.{Unpacks, IsStock, stock_word, place_number};

/// A chain of free items: its first, below 2^20, and how many they are, at most 2^20.
#[derive(Clone, Copy, Debug, PartialEq, Eq)]
pub struct Stock {
    pub first: Option<u32>,
    pub count: u32,
}

fn place_number(first: Option<u32>) -> u64
    ensures { result ≡ place_number first }
{
    match first {
        Some(i) => (i as u64) + 1,
        None => 0,
    }
}

/// The word of a stock.
pub fn pack_stock(s: Stock) -> u64
    requires { IsStock s }
    ensures { result ≡ stock_word s }
{
    place_number(s.first) + 4294967296 * (s.count as u64)
}

/// The stock of a word, or none where it is that of no stock.
pub fn unpack_stock(w: u64) -> Option<Stock>
    ensures { Unpacks IsStock stock_word w result }
{
    let place = (w % 4294967296) as u32;
    let count = (w / 4294967296) as u32;
    if place > 1048576 || count > 1048576 {
        return None;
    }
    let first = if place == 0 { None } else { Some(place - 1) };
    Some(Stock { first, count })
}
