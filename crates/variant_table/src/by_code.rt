//! Calls a function that is generic over the games for the game with a code.

/// `by_code!(code, replay_of(alloc, setup))` is `replay_of::<NT>(alloc, setup)` if the code is
/// `NT`, and likewise for each of the eleven games.
#[macro_export]
macro_rules! by_code {
    ($code:expr, $call:ident($($arg:expr),* $(,)?)) => {
        match $code {
            $crate::Code::FT => $call::<$crate::FT>($($arg),*),
            $crate::Code::NT => $call::<$crate::NT>($($arg),*),
            $crate::Code::NS => $call::<$crate::NS>($($arg),*),
            $crate::Code::PO => $call::<$crate::PO>($($arg),*),
            $crate::Code::FO8 => $call::<$crate::FO8>($($arg),*),
            $crate::Code::F7S => $call::<$crate::F7S>($($arg),*),
            $crate::Code::F7S8 => $call::<$crate::F7S8>($($arg),*),
            $crate::Code::FR => $call::<$crate::FR>($($arg),*),
            $crate::Code::N2L1D => $call::<$crate::N2L1D>($($arg),*),
            $crate::Code::F2L3D => $call::<$crate::F2L3D>($($arg),*),
            $crate::Code::FB => $call::<$crate::FB>($($arg),*),
        }
    };
}
