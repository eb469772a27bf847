/// The file of the service.
pub const SERVICE_FILE: u16 = 0;
