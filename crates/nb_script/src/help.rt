//! The texts of the program's help.

pub(crate) const BITS: &str = "Size of the first table: 2^B slots; 2 to 12";

pub(crate) const GENERATIONS: &str =
    "How many tables the map may have, each twice as large as the one before; 1 to 8";

pub(crate) const SEATS: &str = "How many workers run the script at the same time; 1 to 8";

pub(crate) const STRIPES: &str = "How many words the count of keys is spread over; 1 to 8";

pub(crate) const REPROBES: &str = "How many slots a new key may try before the map grows; \
    1 to 4294967295, by default without limit";

pub(crate) const CHUNK: &str =
    "How many slots a worker copies at a time when the map grows; a power of two from 4 to 1024";

pub(crate) const PLAN: &str = "Tables of 2^E slots, one for each E, instead of --bits and \
    --generations; 1 to 16 numbers from 2 to 19, none smaller than the one before";

/// What follows the options: the script's language, the output, the exit statuses, an example.
pub(crate) const SCRIPTS: &str = "\
Script:
  Each line is a worker's number, an op and its arguments, such as: 0 put 7 5
  Workers are numbered from 0.
  A line with only -- ends a phase. No worker goes on until all workers have
  finished their lines above it.
  Keys go from 0 to 18446744073709551613, values from 0 to 1152921504606846975.

Ops, with the reply and what each does:
  get K              the value of K
  put K V            the old value; sets K to V
  putifabsent K V    the old value; sets K to V if K has no value
  replace K V        the old value; sets K to V if K has a value
  replaceif K OLD V  whether K has OLD: true or false; if true, sets K to V
  remove K           the old value; removes K
  removeif K V       whether K has V: true or false; if true, removes K
  add K N            the old value; adds N to it, or to 0 if K has no value
  A reply that is a value is - if K had none. The reply is full if there is no room
  for a new key, and range if a sum would exceed the greatest value. After full or
  range, nothing has changed.

Room:
  The last table has room for as many keys as slots, by default for 128. A removed
  key keeps its slot. With --plan 4,19 there is room for 524288 keys, half a million.

Output:
  First the replies, phase by phase and worker by worker. Each comes after its
  worker's number. Then 'size' and the number of keys. Then each key with its
  value, in ascending order.

Exit status:
  0  the script was run, or help was asked for
  1  reading or writing failed
  2  the script has a fault; the message names its line
  3  the options are wrong
  4  out of memory, or a thread could not be started

Example:
  printf '0 put 7 5\\n0 add 7 1\\n0 get 7\\n' | nbrun";
