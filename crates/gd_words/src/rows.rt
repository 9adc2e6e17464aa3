use gd_base::LineFault;

/// What the first word of a line asks for: `UnknownCommand` or `WrongCount`, or what the words behind it are read as.
pub(crate) type Asked<T> = Result<Result<T, LineFault>, LineFault>;

/// What is asked for under a name: by the row of that name, where so many words may follow it, and otherwise by what
/// stands behind the rows.
macro_rules! by_name {
    ($name:expr; $($row:literal, $fits:expr => $words:expr,)+ _ => $other:expr $(,)?) => {
        $(if $name == $row.as_slice() {
            if $fits {
                Ok($words)
            } else {
                Err(gd_base::LineFault::WrongCount)
            }
        } else)+ {
            $other
        }
    };
}

pub(crate) use by_name;
