ghost use Rattle.std.specs.Prelude.{◌≡◌, IsSome, IsErr, is_some};
ghost use Rattle.pgcopy.specs.Words.{texts, HasNoPlan, asks_about};

/// How the program is used.
const HELP: &str = "\
usage: pgcopy copy [OPTION...] TYPE...
       pgcopy --help | -h | --version

Reads a stream from standard input as PostgreSQL sends it for
COPY .. TO STDOUT (FORMAT binary), and writes to standard output the canonical
stream of the same rows. A line of report goes to standard error.

Each TYPE is the type of one column, or with [] behind it, as int4[], arrays of
it in one dimension. A ? behind a type, or behind its [], says that it may be
null, so that 'int4?[]?' is null or an array of numbers and nulls:
  bool         true or false
  char         one byte, PostgreSQL's \"char\"
  int2         a signed number of 16 bits
  int4         a signed number of 32 bits
  int8         a signed number of 64 bits
  oid          an object identifier, an unsigned number of 32 bits
  text         text of UTF-8
  bytea        any bytes
  uuid         an identifier of 16 bytes
  money        an amount, a signed number of 64 bits
  pg_lsn       a place in the write-ahead log, an unsigned number of 64 bits
  macaddr      a hardware address of 6 bytes
  macaddr8     a hardware address of 8 bytes
  inet         an address of IPv4 or IPv6, with the length of its prefix
  cidr         a network of IPv4 or IPv6, in the same form
  date         a date, in days from 2000-01-01
  time         a time of day, in microseconds
  timestamp    a date and time, in microseconds from 2000-01-01
  timestamptz  the same in UTC
  interval     a span of time, as microseconds, days and months
  numeric      a number of any precision, by its digits, or not a number
  int4range, int8range, numrange, daterange, tsrange, tstzrange
               a range of values of int4, int8, numeric, date, timestamp or
               timestamptz
  int4multirange, int8multirange, nummultirange, datemultirange, tsmultirange,
  tstzmultirange
               any number of such ranges
  @[SCHEMA.]NAME:text
               a type of this name that is sent as text, as citext or an enum;
               arrays of it need its oid=

options, in front of the types; rows= and field= at most once:
  rows=N   refuse a stream of more than N rows, N up to 18446744073709551615
  field=N  refuse a value of more than N bytes, N up to 2147483647
  oid=[SCHEMA.]NAME:OID:ARRAYOID
           the oids of a type and of its arrays, up to 4294967295, once for each
           schema and name; without SCHEMA it is public. Arrays of a type
           with an @ need it

exit status:
  0  the whole stream was copied
  1  something is wrong with the words; nothing was read
  2  the input is no such stream, or exceeds a limit
  3  the input could not be read, or the output not written
  4  a TYPE needs an oid that no oid= gives, or gives as 0; nothing was read
  5  memory was asked for and refused
Use the output after status 0 only.

example:
  psql -Atc \"COPY t TO STDOUT (FORMAT binary)\" | pgcopy copy int4 'text?' > t.pgcopy
";

const VERSION: &str = "pgcopy 0.1.0\n";

/// What the program tells of itself where one of the words `--help`, `-h` and `--version` stands alone.
pub fn asked(words: &[String]) -> Option<&'static str>
    ensures asked { is_some result ≡ asks_about words.now }
    ensures no_plan { IsSome result → HasNoPlan (texts words.now) }
{
    if words.len() != 1 {
        return None;
    }
    match words[0].as_str() {
        "--help" | "-h" => Some(HELP),
        "--version" => Some(VERSION),
        _ => None,
    }
}
