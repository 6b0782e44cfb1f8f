//! The real devices.

mod devices;
