// The variables of an environment.

ghost use Rattle.std.specs.Prelude.{◌≡◌};
ghost use Rattle.markers.specs.Variables.{variable_name};

/// A variable that an environment gives a text to (PEP 508, "Environment Markers"), in the byte order
/// of the names. `extra` is none of them: it depends on the requirement that is asked.
#[derive(Clone, Copy, Debug, PartialEq, Eq)]
pub enum Variable {
    ImplementationName,
    ImplementationVersion,
    OsName,
    PlatformMachine,
    PlatformPythonImplementation,
    PlatformRelease,
    PlatformSystem,
    PlatformVersion,
    PythonFullVersion,
    PythonVersion,
    SysPlatform,
}

/// The variables, in the byte order of their names.
pub const VARIABLES: [Variable; 11] = [
    Variable::ImplementationName,
    Variable::ImplementationVersion,
    Variable::OsName,
    Variable::PlatformMachine,
    Variable::PlatformPythonImplementation,
    Variable::PlatformRelease,
    Variable::PlatformSystem,
    Variable::PlatformVersion,
    Variable::PythonFullVersion,
    Variable::PythonVersion,
    Variable::SysPlatform,
];

impl Variable {
    /// The name of the variable.
    pub fn name(&self) -> &'static str
        ensures { result.now ≡ variable_name self.now }
    {
        match self {
            Variable::ImplementationName => "implementation_name",
            Variable::ImplementationVersion => "implementation_version",
            Variable::OsName => "os_name",
            Variable::PlatformMachine => "platform_machine",
            Variable::PlatformPythonImplementation => "platform_python_implementation",
            Variable::PlatformRelease => "platform_release",
            Variable::PlatformSystem => "platform_system",
            Variable::PlatformVersion => "platform_version",
            Variable::PythonFullVersion => "python_full_version",
            Variable::PythonVersion => "python_version",
            Variable::SysPlatform => "sys_platform",
        }
    }
}
